//! Methods.
ghost use Rattle.std.specs.Prelude.{◌≡◌, ◌&&◌, ◌||◌, [], ◌∷◌, IfOk, IfErr};
ghost use Rattle.iv_recogniser.specs.declared.class.Class.TheVariants as class;
ghost use Rattle.iv_recogniser.specs.declared.class.Sort.TheVariants as sort;
ghost use Rattle.iv_text.specs.declared.want.Want.TheVariants.{Memory};
ghost use Rattle.iv_forms.specs.declared.method.Arg.TheVariants as VArg;
ghost use Rattle.iv_forms.specs.declared.method.Case.TheVariants as VCase;
ghost use Rattle.iv_forms.specs.declared.method.MethodText.TheVariants as VMethod;
ghost use Rattle.iv_facts.specs.Found.{got, then_, one, unless_deep, IsStop, begins, behind};
ghost use Rattle.iv_facts.specs.Props.{opt_for};
ghost use Rattle.iv_readmethod.specs.Patterns.{opt_nat};
ghost use Rattle.iv_readmethod.specs.Methods.{flat, mapped, opens, closes, brackets, stays, past, noted_facts, section, sections, alone, subject_term, subject, rule, suffix, both, raised, between, joined, goes_arg, parens, core, method, arg, args, call, case, more_cases, cases, match_, item, operand, linked, inside, a_method, opt_method};

use crate::levelled::{Join, Levelled, closed, first_of, flat, more, raised};
use crate::patterns::{more_patterns, named, opt_nat, pattern};
use iv_facts::Stop;
use iv_facts::facts::{LIMIT, facts, goes_fact};
use iv_facts::props::opt_for;
use iv_facts::tokens::{begins, behind, one, place, skip, stop_at};
use iv_forms::{Arg, Case, Fact, Items, Lexeme, MethodText, Pattern, Section, Subject, VarGroup};
use iv_recogniser::{Class, Sort};
use iv_shared::Shared;
use std::alloc::{AllocError, Global};

/// Whether a token opens parentheses or brackets.
fn opens(class: Class) -> bool
    ensures { result ≡ opens class }
{
    Sort::Only(Class::Open).has(class) || Sort::Only(Class::Left).has(class)
}

/// Whether a token closes parentheses or brackets.
fn closes(class: Class) -> bool
    ensures { result ≡ closes class }
{
    Sort::Only(Class::Close).has(class) || Sort::Only(Class::Right).has(class)
}

/// Whether a token belongs to facts, where so many brackets are open.
#[tactic(auto, unfolding(crate::specs::Methods::stays))]
fn stays(tokens: &[Lexeme], depth: usize) -> bool
    ensures { result ≡ stays depth tokens.now }
{
    0 < depth
        || begins(tokens, Sort::Only(Class::Open))
        || begins(tokens, Sort::Only(Class::Left))
        || goes_fact(tokens)
}

/// What stands behind facts, passed over by their brackets.
#[tactic(auto, unfolding(crate::specs::Methods::past, crate::specs::Methods::brackets))]
fn past(tokens: &[Lexeme]) -> &[Lexeme]
    ensures { result.now ≡ past 0 tokens.now }
{
    let mut rest = tokens;
    let mut depth: usize = 0;
    while let [first, after @ ..] = rest {
        if !stays(rest, depth) {
            break;
        }
        if opens(first.class) {
            depth += 1;
        } else if closes(first.class) {
            depth = depth.saturating_sub(1);
        }
        rest = after;
    }
    rest
}

/// Facts, or the place of the first that is too deep, and the tokens behind them.
#[tactic(auto, using(crate::proofs::Joins::noted_got, crate::proofs::Joins::noted_deep, crate::proofs::Joins::noted_wrong))]
fn noted_facts(alloc: Global, tokens: &[Lexeme]) -> Result<(Levelled<Items<Fact>>, &[Lexeme]), Stop>
    ensures ok { IfOk result (λ r. noted_facts tokens.now ≡ got r.0 r.1.now) }
    ensures err { IfErr result (λ e. IsStop e (noted_facts tokens.now)) }
{
    match facts(alloc, tokens) {
        Ok((facts, rest)) => Ok((flat(facts), rest)),
        Err(Stop::Deep(place)) => {
            let noted = Levelled {
                value: Items::new(alloc),
                levels: 0,
                deep: Some(place),
            };
            Ok((noted, past(tokens)))
        }
        Err(Stop::Syntax) => Err(Stop::Syntax),
        Err(Stop::Memory) => Err(Stop::Memory),
    }
}

/// A section of a call, and the tokens behind it.
#[tactic(auto, using(iv_facts::proofs::Steps::stopped, iv_facts::proofs::Steps::went_on), unfolding(crate::specs::Methods::section, iv_facts::specs::Found::then_))]
fn section(alloc: Global, tokens: &[Lexeme]) -> Result<(Levelled<Section>, &[Lexeme]), Stop>
    ensures ok { IfOk result (λ r. section tokens.now ≡ got r.0 r.1.now) }
    ensures err { IfErr result (λ e. IsStop e (section tokens.now)) }
{
    let (name, rest) = one(tokens, Sort::Identifier)?;
    let (_colon, rest) = one(rest, Sort::Only(Class::Colon))?;
    let name = name.token.copy()?;
    let (facts, rest) = noted_facts(alloc, rest)?;
    let section = Levelled {
        value: Section {
            name,
            facts: facts.value,
        },
        levels: facts.levels,
        deep: facts.deep,
    };
    Ok((section, rest))
}

/// The sections of a call, and the tokens behind them.
#[tactic(auto, using(crate::proofs::Joins::joins_stop, crate::proofs::Joins::joins_end, crate::proofs::Joins::joins_stopped), unfolding(crate::specs::Methods::sections, crate::specs::Methods::lists))]
fn sections(alloc: Global, tokens: &[Lexeme]) -> Result<(Levelled<Items<Section>>, &[Lexeme]), Stop>
    ensures ok { IfOk result (λ r. sections tokens.now ≡ got r.0 r.1.now) }
    ensures err { IfErr result (λ e. IsStop e (sections tokens.now)) }
{
    let mut found = flat(Items::new(alloc));
    let mut rest = tokens;
    for _step in tokens {
        if !named(rest) {
            break;
        }
        let (next, after) = section(alloc, rest)?;
        more(&mut found, next)?;
        rest = after;
    }
    Ok((found, rest))
}

/// Whether a word stands alone in front of `in`.
#[tactic(auto, unfolding(crate::specs::Methods::alone))]
fn alone(tokens: &[Lexeme], class: Class) -> bool
    ensures { result ≡ alone class tokens.now }
{
    begins(tokens, Sort::Only(class)) && begins(behind(tokens), Sort::Only(Class::In))
}

/// A term in parentheses that `match` looks at, and the tokens behind it.
#[tactic(auto, using(iv_facts::proofs::Steps::stopped, iv_facts::proofs::Steps::went_on), unfolding(crate::specs::Methods::subject_term, iv_facts::specs::Found::then_))]
fn subject_term(tokens: &[Lexeme]) -> Result<(Levelled<Subject>, &[Lexeme]), Stop>
    ensures ok { IfOk result (λ r. subject_term tokens.now ≡ got r.0 r.1.now) }
    ensures err { IfErr result (λ e. IsStop e (subject_term tokens.now)) }
{
    let (_open, rest) = one(tokens, Sort::Only(Class::Open))?;
    let (term, rest) = one(rest, Sort::Term)?;
    let (_close, rest) = one(rest, Sort::Only(Class::Close))?;
    Ok((flat(Subject::Term(term.token.copy()?)), rest))
}

/// What `match` looks at, and the tokens behind it.
#[tactic(auto, using(iv_facts::proofs::Steps::stopped, iv_facts::proofs::Steps::went_on), unfolding(crate::specs::Methods::subject, iv_facts::specs::Found::then_))]
fn subject(alloc: Global, tokens: &[Lexeme]) -> Result<(Levelled<Subject>, &[Lexeme]), Stop>
    ensures ok { IfOk result (λ r. subject tokens.now ≡ got r.0 r.1.now) }
    ensures err { IfErr result (λ e. IsStop e (subject tokens.now)) }
{
    if alone(tokens, Class::Premises) {
        return Ok((flat(Subject::Premises), behind(tokens)));
    }
    if alone(tokens, Class::Conclusion) {
        return Ok((flat(Subject::Conclusion), behind(tokens)));
    }
    if begins(tokens, Sort::Only(Class::Open)) {
        return subject_term(tokens);
    }
    let (facts, rest) = noted_facts(alloc, tokens)?;
    let subject = Levelled {
        value: Subject::Facts(facts.value),
        levels: facts.levels,
        deep: facts.deep,
    };
    Ok((subject, rest))
}

/// A rule method with its facts, and the tokens behind it.
#[tactic(auto, using(iv_facts::proofs::Steps::stopped, iv_facts::proofs::Steps::went_on), unfolding(crate::specs::Methods::rule, iv_facts::specs::Found::then_))]
fn rule(alloc: Global, tokens: &[Lexeme]) -> Result<(Levelled<MethodText>, &[Lexeme]), Stop>
    ensures ok { IfOk result (λ r. rule tokens.now ≡ got r.0 r.1.now) }
    ensures err { IfErr result (λ e. IsStop e (rule tokens.now)) }
{
    let (word, rest) = one(tokens, Sort::Only(Class::Rule))?;
    let word = word.token.copy()?;
    let (facts, rest) = noted_facts(alloc, rest)?;
    let rule = Levelled {
        value: MethodText::Rule(word, facts.value),
        levels: facts.levels,
        deep: facts.deep,
    };
    Ok((rule, rest))
}

/// `m?`, where so many levels are left; the tokens are those behind it.
fn tried(
    alloc: Global,
    left: u32,
    method: Levelled<MethodText>,
    tokens: &[Lexeme],
) -> Result<(Levelled<MethodText>, &[Lexeme]), Stop>
    ensures ok { IfOk result (λ r. raised left (mapped VMethod.Try method) tokens.now ≡ got r.0 r.1.now) }
    ensures err { IfErr result (λ e. IsStop e (raised left (mapped VMethod.Try method) tokens.now)) }
{
    let tried = Levelled {
        value: MethodText::Try(Shared::new(alloc, method.value)?),
        levels: method.levels,
        deep: method.deep,
    };
    raised(tried, left, tokens)
}

/// `m+`, where so many levels are left; the tokens are those behind it.
fn repeated(
    alloc: Global,
    left: u32,
    method: Levelled<MethodText>,
    tokens: &[Lexeme],
) -> Result<(Levelled<MethodText>, &[Lexeme]), Stop>
    ensures ok { IfOk result (λ r. raised left (mapped VMethod.Repeat method) tokens.now ≡ got r.0 r.1.now) }
    ensures err { IfErr result (λ e. IsStop e (raised left (mapped VMethod.Repeat method) tokens.now)) }
{
    let repeated = Levelled {
        value: MethodText::Repeat(Shared::new(alloc, method.value)?),
        levels: method.levels,
        deep: method.deep,
    };
    raised(repeated, left, tokens)
}

/// `m[n]`, where so many levels are left; the tokens are those behind it.
fn first(
    alloc: Global,
    left: u32,
    method: Levelled<MethodText>,
    count: u32,
    tokens: &[Lexeme],
) -> Result<(Levelled<MethodText>, &[Lexeme]), Stop>
    ensures ok { IfOk result (λ r. raised left (mapped (λ m. VMethod.First m count) method) tokens.now ≡ got r.0 r.1.now) }
    ensures err { IfErr result (λ e. IsStop e (raised left (mapped (λ m. VMethod.First m count) method) tokens.now)) }
{
    let first = Levelled {
        value: MethodText::First(Shared::new(alloc, method.value)?, count),
        levels: method.levels,
        deep: method.deep,
    };
    raised(first, left, tokens)
}

/// A part, the number behind it, which is 1 where it is absent, and the tokens behind that. Generic, so that no drop of a
/// method is written out at its exits.
fn counted<T: Drop>(part: T, tokens: &[Lexeme]) -> Result<(T, u32, &[Lexeme]), Stop>
    ensures part { IfOk result (λ r. r.0 ≡ part) }
    ensures ok { IfOk result (λ r. opt_nat tokens.now ≡ got r.1 r.2.now) }
    ensures err { IfErr result (λ e. IsStop e (opt_nat tokens.now)) }
{
    let (count, rest) = opt_nat(tokens)?;
    Ok((part, count, rest))
}

/// `m[n]`, where so many levels are left, by the tokens behind `[`, and those behind it.
#[tactic(auto, using(iv_facts::proofs::Steps::stopped, iv_facts::proofs::Steps::went_on), unfolding(iv_facts::specs::Found::then_))]
fn cut_off(
    alloc: Global,
    left: u32,
    method: Levelled<MethodText>,
    tokens: &[Lexeme],
) -> Result<(Levelled<MethodText>, &[Lexeme]), Stop>
    ensures ok { IfOk result (λ r. then_ (opt_nat tokens.now) (λ n us. then_ (one (sort.Only class.Right) us) (λ b vs. raised left (mapped (λ m. VMethod.First m n) method) vs)) ≡ got r.0 r.1.now) }
    ensures err { IfErr result (λ e. IsStop e (then_ (opt_nat tokens.now) (λ n us. then_ (one (sort.Only class.Right) us) (λ b vs. raised left (mapped (λ m. VMethod.First m n) method) vs)))) }
{
    let (method, count, rest) = counted(method, tokens)?;
    let (method, _right, rest) = closed(method, rest, Sort::Only(Class::Right))?;
    first(alloc, left, method, count, rest)
}

/// What may stand behind a method, where so many levels are left, and the tokens behind it.
#[tactic(auto, using(iv_facts::proofs::Steps::stopped, iv_facts::proofs::Steps::went_on), unfolding(crate::specs::Methods::suffix, iv_facts::specs::Found::then_))]
fn suffix(
    alloc: Global,
    left: u32,
    tokens: &[Lexeme],
    method: Levelled<MethodText>,
) -> Result<(Levelled<MethodText>, &[Lexeme]), Stop>
    ensures ok { IfOk result (λ r. suffix left method tokens.now ≡ got r.0 r.1.now) }
    ensures err { IfErr result (λ e. IsStop e (suffix left method tokens.now)) }
{
    if begins(tokens, Sort::Only(Class::Question)) {
        return tried(alloc, left, method, behind(tokens));
    }
    if begins(tokens, Sort::Only(Class::Plus)) {
        return repeated(alloc, left, method, behind(tokens));
    }
    match skip(tokens, Sort::Only(Class::Left)) {
        None => Ok((method, tokens)),
        Some(rest) => cut_off(alloc, left, method, rest),
    }
}

/// Whether a call goes on with an argument: by `(`, or by a term that isn't the name of a section.
#[tactic(auto, unfolding(crate::specs::Methods::goes_arg))]
fn goes_arg(tokens: &[Lexeme]) -> bool
    ensures { result ≡ goes_arg tokens.now }
{
    begins(tokens, Sort::Only(Class::Open)) || (begins(tokens, Sort::Term) && !named(tokens))
}

/// Whether a rule method with facts comes next.
fn goes_rule(tokens: &[Lexeme]) -> bool
    ensures { result ≡ (begins (sort.Only class.Rule) tokens.now && begins sort.Name (behind tokens.now)) }
{
    begins(tokens, Sort::Only(Class::Rule)) && begins(behind(tokens), Sort::Name)
}

/// Whether `match` comes next, with what it looks at.
fn goes_match(tokens: &[Lexeme]) -> bool
    ensures { result ≡ (begins (sort.Only class.Match) tokens.now && (begins (sort.Only class.Open) (behind tokens.now) || begins sort.Name (behind tokens.now))) }
{
    begins(tokens, Sort::Only(Class::Match))
        && (begins(behind(tokens), Sort::Only(Class::Open)) || begins(behind(tokens), Sort::Name))
}

/// Whether a call with arguments or sections comes next.
fn goes_call(tokens: &[Lexeme]) -> bool
    ensures { result ≡ (begins sort.CallName tokens.now && (begins (sort.Only class.Open) (behind tokens.now) || begins sort.Term (behind tokens.now))) }
{
    begins(tokens, Sort::CallName)
        && (begins(behind(tokens), Sort::Only(Class::Open)) || begins(behind(tokens), Sort::Term))
}

/// The token that joins two methods.
fn between(join: Join) -> Class
    ensures { result ≡ between join }
{
    match join {
        Join::Then => Class::Comma,
        Join::On => Class::Semicolon,
        Join::Or => Class::Bar,
    }
}

/// Two shared methods together.
fn join_of(join: Join, first: Shared<MethodText>, second: Shared<MethodText>) -> MethodText
    ensures { result ≡ joined join first second }
{
    match join {
        Join::Then => MethodText::Then(first, second),
        Join::On => MethodText::On(first, second),
        Join::Or => MethodText::Or(first, second),
    }
}

/// Two values, each shared. Generic, so that no drop of a method is written out at its exits.
fn both_shared<T: Drop>(
    alloc: Global,
    first: T,
    second: T,
) -> Result<(Shared<T>, Shared<T>), AllocError>
    ensures { IfOk result (λ p. (p.0 ≡ first) × (p.1 ≡ second)) }
{
    let first = Shared::new(alloc, first)?;
    let second = Shared::new(alloc, second)?;
    Ok((first, second))
}

/// Two methods together.
fn joined(
    alloc: Global,
    join: Join,
    first: MethodText,
    second: MethodText,
) -> Result<MethodText, AllocError>
    ensures { IfOk result (λ m. m ≡ joined join first second) }
{
    let (first, second) = both_shared(alloc, first, second)?;
    Ok(join_of(join, first, second))
}

/// Two methods together, where so many levels are left; the tokens are those behind them.
fn link(
    alloc: Global,
    left: u32,
    join: Join,
    first: Levelled<MethodText>,
    second: Levelled<MethodText>,
    tokens: &[Lexeme],
) -> Result<(Levelled<MethodText>, &[Lexeme]), Stop>
    ensures ok { IfOk result (λ r. raised left (both (joined join) first second) tokens.now ≡ got r.0 r.1.now) }
    ensures err { IfErr result (λ e. IsStop e (raised left (both (joined join) first second) tokens.now)) }
{
    let both = Levelled {
        value: joined(alloc, join, first.value, second.value)?,
        levels: first.levels.max(second.levels),
        deep: first_of(first.deep, second.deep),
    };
    raised(both, left, tokens)
}

/// A method in parentheses, where so many levels are left, and the tokens behind it.
#[cycle(method)]
#[tactic(auto, using(iv_facts::proofs::Steps::stopped, iv_facts::proofs::Steps::went_on), unfolding(crate::specs::Methods::parens, iv_facts::specs::Found::then_))]
fn parens(
    alloc: Global,
    left: u32,
    tokens: &[Lexeme],
) -> Result<(Levelled<MethodText>, &[Lexeme]), Stop>
    ensures ok { IfOk result (λ r. parens (inside left) left tokens.now ≡ got r.0 r.1.now) }
    ensures err { IfErr result (λ e. IsStop e (parens (inside left) left tokens.now)) }
{
    let (_open, rest) = one(tokens, Sort::Only(Class::Open))?;
    let (method, rest) = inside(alloc, left, rest)?;
    let (method, _close, rest) = closed(method, rest, Sort::Only(Class::Close))?;
    raised(method, left, rest)
}

/// A method that is a name, and the tokens behind it.
#[tactic(auto, using(iv_facts::proofs::Steps::stopped, iv_facts::proofs::Steps::went_on), unfolding(iv_facts::specs::Found::then_))]
fn name(tokens: &[Lexeme]) -> Result<(Levelled<MethodText>, &[Lexeme]), Stop>
    ensures ok { IfOk result (λ r. then_ (one sort.Name tokens.now) (λ n us. got (flat (VMethod.Name n.token)) us) ≡ got r.0 r.1.now) }
    ensures err { IfErr result (λ e. IsStop e (then_ (one sort.Name tokens.now) (λ n us. got (flat (VMethod.Name n.token)) us))) }
{
    let (name, rest) = one(tokens, Sort::Name)?;
    Ok((flat(MethodText::Name(name.token.copy()?)), rest))
}

/// A name, `-` or a method in parentheses, and the tokens behind it.
#[cycle(method)]
#[tactic(auto, using(iv_facts::proofs::Steps::stopped, iv_facts::proofs::Steps::went_on), unfolding(crate::specs::Methods::core, iv_facts::specs::Found::then_))]
fn core(
    alloc: Global,
    left: u32,
    tokens: &[Lexeme],
) -> Result<(Levelled<MethodText>, &[Lexeme]), Stop>
    ensures ok { IfOk result (λ r. core (inside left) left tokens.now ≡ got r.0 r.1.now) }
    ensures err { IfErr result (λ e. IsStop e (core (inside left) left tokens.now)) }
{
    if begins(tokens, Sort::Only(Class::Open)) {
        let (method, rest) = parens(alloc, left, tokens)?;
        let paren = Levelled {
            value: MethodText::Paren(Shared::new(alloc, method.value)?),
            levels: method.levels,
            deep: method.deep,
        };
        return Ok((paren, rest));
    }
    if begins(tokens, Sort::Only(Class::Minus)) {
        return Ok((flat(MethodText::Dash), behind(tokens)));
    }
    name(tokens)
}

/// A method that is no call, where so many levels are left, and the tokens behind it.
#[cycle(method)]
#[tactic(auto, using(iv_facts::proofs::Steps::stopped, iv_facts::proofs::Steps::went_on), unfolding(crate::specs::Methods::method, iv_facts::specs::Found::then_))]
fn method(
    alloc: Global,
    left: u32,
    tokens: &[Lexeme],
) -> Result<(Levelled<MethodText>, &[Lexeme]), Stop>
    ensures ok { IfOk result (λ r. method (inside left) left tokens.now ≡ got r.0 r.1.now) }
    ensures err { IfErr result (λ e. IsStop e (method (inside left) left tokens.now)) }
{
    let (core, rest) = core(alloc, left, tokens)?;
    suffix(alloc, left, rest, core)
}

/// An argument that is a term, and the tokens behind it.
#[tactic(auto, using(iv_facts::proofs::Steps::stopped, iv_facts::proofs::Steps::went_on), unfolding(iv_facts::specs::Found::then_))]
fn term(tokens: &[Lexeme]) -> Result<(Levelled<Arg>, &[Lexeme]), Stop>
    ensures ok { IfOk result (λ r. then_ (one sort.Term tokens.now) (λ t us. got (flat (VArg.Term t.token)) us) ≡ got r.0 r.1.now) }
    ensures err { IfErr result (λ e. IsStop e (then_ (one sort.Term tokens.now) (λ t us. got (flat (VArg.Term t.token)) us))) }
{
    let (term, rest) = one(tokens, Sort::Term)?;
    Ok((flat(Arg::Term(term.token.copy()?)), rest))
}

/// An argument of a call, and the tokens behind it.
#[cycle(method)]
#[tactic(auto, using(iv_facts::proofs::Steps::stopped, iv_facts::proofs::Steps::went_on), unfolding(crate::specs::Methods::arg, iv_facts::specs::Found::then_))]
fn arg(alloc: Global, left: u32, tokens: &[Lexeme]) -> Result<(Levelled<Arg>, &[Lexeme]), Stop>
    ensures ok { IfOk result (λ r. arg (inside left) left tokens.now ≡ got r.0 r.1.now) }
    ensures err { IfErr result (λ e. IsStop e (arg (inside left) left tokens.now)) }
{
    if begins(tokens, Sort::Only(Class::Open)) {
        let (method, rest) = parens(alloc, left, tokens)?;
        let arg = Levelled {
            value: Arg::Method(Shared::new(alloc, method.value)?),
            levels: method.levels,
            deep: method.deep,
        };
        return Ok((arg, rest));
    }
    term(tokens)
}

/// The arguments of a call, and the tokens behind them.
#[cycle(method)]
#[tactic(auto, using(crate::proofs::Joins::joins_stop, crate::proofs::Joins::joins_end, crate::proofs::Joins::joins_stopped), unfolding(crate::specs::Methods::args, crate::specs::Methods::lists))]
fn args(
    alloc: Global,
    left: u32,
    tokens: &[Lexeme],
) -> Result<(Levelled<Items<Arg>>, &[Lexeme]), Stop>
    ensures ok { IfOk result (λ r. args (inside left) left tokens.now ≡ got r.0 r.1.now) }
    ensures err { IfErr result (λ e. IsStop e (args (inside left) left tokens.now)) }
{
    let mut found = flat(Items::new(alloc));
    let mut rest = tokens;
    for _step in tokens {
        if !goes_arg(rest) {
            break;
        }
        let (next, after) = arg(alloc, left, rest)?;
        more(&mut found, next)?;
        rest = after;
    }
    Ok((found, rest))
}

/// A call with its arguments and sections, and the tokens behind it.
#[cycle(method)]
#[tactic(auto, using(iv_facts::proofs::Steps::stopped, iv_facts::proofs::Steps::went_on), unfolding(crate::specs::Methods::call, iv_facts::specs::Found::then_))]
fn call(
    alloc: Global,
    left: u32,
    tokens: &[Lexeme],
) -> Result<(Levelled<MethodText>, &[Lexeme]), Stop>
    ensures ok { IfOk result (λ r. call (inside left) left tokens.now ≡ got r.0 r.1.now) }
    ensures err { IfErr result (λ e. IsStop e (call (inside left) left tokens.now)) }
{
    let (name, rest) = one(tokens, Sort::CallName)?;
    let name = name.token.copy()?;
    let (args, rest) = args(alloc, left, rest)?;
    let (sections, rest) = sections(alloc, rest)?;
    let call = Levelled {
        value: MethodText::Call(name, args.value, sections.value),
        levels: args.levels.max(sections.levels),
        deep: first_of(args.deep, sections.deep),
    };
    Ok((call, rest))
}

/// A case of these parts, where so many levels are left; the tokens are those behind it.
#[tactic(auto, using(iv_facts::proofs::Steps::stopped, iv_facts::proofs::Steps::went_on), unfolding(iv_facts::specs::Found::then_))]
fn case_of(
    alloc: Global,
    left: u32,
    patterns: Items<Pattern>,
    names: Items<VarGroup>,
    method: Levelled<MethodText>,
    tokens: &[Lexeme],
) -> Result<(Levelled<Case>, &[Lexeme]), Stop>
    ensures ok { IfOk result (λ r. raised left (mapped (VCase.Case patterns names) method) tokens.now ≡ got r.0 r.1.now) }
    ensures err { IfErr result (λ e. IsStop e (raised left (mapped (VCase.Case patterns names) method) tokens.now)) }
{
    let case = Levelled {
        value: Case::Case(patterns, names, Shared::new(alloc, method.value)?),
        levels: method.levels,
        deep: method.deep,
    };
    raised(case, left, tokens)
}

/// The method of a case, where so many levels are left, and the tokens behind the case.
#[cycle(method)]
#[tactic(auto, using(iv_facts::proofs::Steps::stopped, iv_facts::proofs::Steps::went_on), unfolding(iv_facts::specs::Found::then_))]
fn case_method(
    alloc: Global,
    left: u32,
    patterns: Items<Pattern>,
    names: Items<VarGroup>,
    tokens: &[Lexeme],
) -> Result<(Levelled<Case>, &[Lexeme]), Stop>
    ensures ok { IfOk result (λ r. then_ (inside left tokens.now) (λ m zs. then_ (one (sort.Only class.OutOf) zs) (λ o us. raised left (mapped (VCase.Case patterns names) m) us)) ≡ got r.0 r.1.now) }
    ensures err { IfErr result (λ e. IsStop e (then_ (inside left tokens.now) (λ m zs. then_ (one (sort.Only class.OutOf) zs) (λ o us. raised left (mapped (VCase.Case patterns names) m) us)))) }
{
    let (method, rest) = inside(alloc, left, tokens)?;
    let (method, _out, rest) = closed(method, rest, Sort::Only(Class::OutOf))?;
    case_of(alloc, left, patterns, names, method, rest)
}

/// What stands behind the patterns of a case, where so many levels are left, and the tokens behind the case.
#[cycle(method)]
#[tactic(auto, using(iv_facts::proofs::Steps::stopped, iv_facts::proofs::Steps::went_on), unfolding(iv_facts::specs::Found::then_))]
fn case_names(
    alloc: Global,
    left: u32,
    patterns: Items<Pattern>,
    tokens: &[Lexeme],
) -> Result<(Levelled<Case>, &[Lexeme]), Stop>
    ensures ok { IfOk result (λ r. then_ (opt_for tokens.now) (λ gs ws. then_ (one (sort.Only class.Arrow) ws) (λ a xs. then_ (one (sort.Only class.Into) xs) (λ i ys. then_ (inside left ys) (λ m zs. then_ (one (sort.Only class.OutOf) zs) (λ o us. raised left (mapped (VCase.Case patterns gs) m) us))))) ≡ got r.0 r.1.now) }
    ensures err { IfErr result (λ e. IsStop e (then_ (opt_for tokens.now) (λ gs ws. then_ (one (sort.Only class.Arrow) ws) (λ a xs. then_ (one (sort.Only class.Into) xs) (λ i ys. then_ (inside left ys) (λ m zs. then_ (one (sort.Only class.OutOf) zs) (λ o us. raised left (mapped (VCase.Case patterns gs) m) us))))))) }
{
    let (names, rest) = opt_for(alloc, tokens)?;
    let (_arrow, rest) = one(rest, Sort::Only(Class::Arrow))?;
    let (_into, rest) = one(rest, Sort::Only(Class::Into))?;
    case_method(alloc, left, patterns, names, rest)
}

/// A case of `match`, where so many levels are left, and the tokens behind it.
#[cycle(method)]
#[tactic(auto, using(iv_facts::proofs::Steps::stopped, iv_facts::proofs::Steps::went_on), unfolding(crate::specs::Methods::case, iv_facts::specs::Found::then_))]
fn case(alloc: Global, left: u32, tokens: &[Lexeme]) -> Result<(Levelled<Case>, &[Lexeme]), Stop>
    ensures ok { IfOk result (λ r. case (inside left) left tokens.now ≡ got r.0 r.1.now) }
    ensures err { IfErr result (λ e. IsStop e (case (inside left) left tokens.now)) }
{
    let (first, rest) = pattern(tokens)?;
    let mut patterns = Items::new(alloc);
    patterns.push(first)?;
    let rest = more_patterns(rest, &mut patterns)?;
    case_names(alloc, left, patterns, rest)
}

/// Further cases behind those that are there.
#[cycle(method)]
#[tactic(auto, using(crate::proofs::Joins::joins_stop, crate::proofs::Joins::joins_end, crate::proofs::Joins::joins_stopped), unfolding(crate::specs::Methods::more_cases, crate::specs::Methods::lists))]
fn more_cases<'a>(
    alloc: Global,
    left: u32,
    tokens: &'a [Lexeme],
    cases: &mut Levelled<Items<Case>>,
) -> Result<&'a [Lexeme], Stop>
    ensures ok { IfOk result (λ r. more_cases (inside left) left cases.old tokens.now ≡ got cases.new r.now) }
    ensures err { IfErr result (λ e. IsStop e (more_cases (inside left) left cases.old tokens.now)) }
{
    let mut rest = tokens;
    for _step in tokens {
        if !begins(rest, Sort::Only(Class::CaseBar)) {
            break;
        }
        let (next, after) = case(alloc, left, behind(rest))?;
        more(cases, next)?;
        rest = after;
    }
    Ok(rest)
}

/// `in` and the cases of `match`, and the tokens behind them.
#[cycle(method)]
#[tactic(auto, using(iv_facts::proofs::Steps::stopped, iv_facts::proofs::Steps::went_on), unfolding(crate::specs::Methods::cases, iv_facts::specs::Found::then_))]
fn cases(
    alloc: Global,
    left: u32,
    tokens: &[Lexeme],
) -> Result<(Levelled<Items<Case>>, &[Lexeme]), Stop>
    ensures ok { IfOk result (λ r. cases (inside left) left tokens.now ≡ got r.0 r.1.now) }
    ensures err { IfErr result (λ e. IsStop e (cases (inside left) left tokens.now)) }
{
    let (_in, rest) = one(tokens, Sort::Only(Class::In))?;
    let (first, rest) = case(alloc, left, rest)?;
    let mut cases = flat(Items::new(alloc));
    more(&mut cases, first)?;
    let rest = more_cases(alloc, left, rest, &mut cases)?;
    Ok((cases, rest))
}

/// `match` with its cases, and the tokens behind it.
#[cycle(method)]
#[tactic(auto, using(iv_facts::proofs::Steps::stopped, iv_facts::proofs::Steps::went_on), unfolding(crate::specs::Methods::match_, iv_facts::specs::Found::then_))]
fn match_(
    alloc: Global,
    left: u32,
    tokens: &[Lexeme],
) -> Result<(Levelled<MethodText>, &[Lexeme]), Stop>
    ensures ok { IfOk result (λ r. match_ (inside left) left tokens.now ≡ got r.0 r.1.now) }
    ensures err { IfErr result (λ e. IsStop e (match_ (inside left) left tokens.now)) }
{
    let (_match, rest) = one(tokens, Sort::Only(Class::Match))?;
    let (subject, rest) = subject(alloc, rest)?;
    let (cases, rest) = cases(alloc, left, rest)?;
    let found = Levelled {
        value: MethodText::Match(subject.value, cases.value),
        levels: subject.levels.max(cases.levels),
        deep: first_of(subject.deep, cases.deep),
    };
    Ok((found, rest))
}

/// A method or a call, where so many levels are left, and the tokens behind it.
#[cycle(method)]
#[tactic(auto, unfolding(crate::specs::Methods::item))]
fn item(
    alloc: Global,
    left: u32,
    tokens: &[Lexeme],
) -> Result<(Levelled<MethodText>, &[Lexeme]), Stop>
    ensures ok { IfOk result (λ r. item (inside left) left tokens.now ≡ got r.0 r.1.now) }
    ensures err { IfErr result (λ e. IsStop e (item (inside left) left tokens.now)) }
{
    if goes_rule(tokens) {
        return rule(alloc, tokens);
    }
    if goes_match(tokens) {
        return match_(alloc, left, tokens);
    }
    if goes_call(tokens) {
        return call(alloc, left, tokens);
    }
    method(alloc, left, tokens)
}

/// What stands beside a token that joins methods, and the tokens behind it.
#[cycle(method)]
#[tactic(auto, unfolding(crate::specs::Methods::operand, crate::specs::Methods::seq, crate::specs::Methods::semi))]
fn operand(
    alloc: Global,
    left: u32,
    join: Join,
    tokens: &[Lexeme],
) -> Result<(Levelled<MethodText>, &[Lexeme]), Stop>
    ensures ok { IfOk result (λ r. operand (inside left) left join tokens.now ≡ got r.0 r.1.now) }
    ensures err { IfErr result (λ e. IsStop e (operand (inside left) left join tokens.now)) }
{
    match join {
        Join::Then => item(alloc, left, tokens),
        Join::On => linked(alloc, left, Join::Then, tokens),
        Join::Or => linked(alloc, left, Join::On, tokens),
    }
}

/// A method joined to the next one, where so many levels are left, and the tokens behind that.
#[cycle(method)]
#[tactic(auto, using(iv_facts::proofs::Steps::stopped, iv_facts::proofs::Steps::went_on), unfolding(iv_facts::specs::Found::then_))]
fn with_next(
    alloc: Global,
    left: u32,
    join: Join,
    first: Levelled<MethodText>,
    tokens: &[Lexeme],
) -> Result<(Levelled<MethodText>, &[Lexeme]), Stop>
    ensures ok { IfOk result (λ r. then_ (operand (inside left) left join tokens.now) (λ n us. raised left (both (joined join) first n) us) ≡ got r.0 r.1.now) }
    ensures err { IfErr result (λ e. IsStop e (then_ (operand (inside left) left join tokens.now) (λ n us. raised left (both (joined join) first n) us))) }
{
    let (next, rest) = operand(alloc, left, join, tokens)?;
    link(alloc, left, join, first, next, rest)
}

/// Methods with tokens between them that join them, and the tokens behind them.
#[cycle(method)]
#[tactic(auto, using(iv_facts::proofs::Steps::stopped, iv_facts::proofs::Steps::went_on, crate::proofs::Joins::joins_stop, crate::proofs::Joins::joins_end), unfolding(crate::specs::Methods::linked))]
fn linked(
    alloc: Global,
    left: u32,
    join: Join,
    tokens: &[Lexeme],
) -> Result<(Levelled<MethodText>, &[Lexeme]), Stop>
    ensures ok { IfOk result (λ r. linked left join (operand (inside left) left join) tokens.now ≡ got r.0 r.1.now) }
    ensures err { IfErr result (λ e. IsStop e (linked left join (operand (inside left) left join) tokens.now)) }
{
    let (mut found, tokens) = operand(alloc, left, join, tokens)?;
    let mut rest = tokens;
    for _step in tokens {
        if !begins(rest, Sort::Only(between(join))) {
            break;
        }
        let (both, after) = with_next(alloc, left, join, found, behind(rest))?;
        found = both;
        rest = after;
    }
    Ok((found, rest))
}

/// What stands in parentheses or in the cartouche of a case, where so many levels are left outside, and the tokens behind it.
#[cycle(method)]
#[tactic(auto, unfolding(crate::specs::Methods::inside, crate::specs::Methods::alt, crate::specs::Methods::operand))]
fn inside(
    alloc: Global,
    left: u32,
    tokens: &[Lexeme],
) -> Result<(Levelled<MethodText>, &[Lexeme]), Stop>
    ensures ok { IfOk result (λ r. inside left tokens.now ≡ got r.0 r.1.now) }
    ensures err { IfErr result (λ e. IsStop e (inside left tokens.now)) }
{
    if left == 0 {
        return Err(Stop::Deep(place(tokens)));
    }
    linked(alloc, left - 1, Join::Or, tokens)
}

/// A part where no fact in it is too deep; the tokens are those behind it. Generic, so that no drop of a method is written out.
fn whole<T: Drop>(part: Levelled<T>, tokens: &[Lexeme]) -> Result<(T, &[Lexeme]), Stop>
    ensures ok { IfOk result (λ r. unless_deep part.deep part.value tokens.now ≡ got r.0 r.1.now) }
    ensures err { IfErr result (λ e. IsStop e (unless_deep part.deep part.value tokens.now)) }
{
    match part.deep {
        None => Ok((part.value, tokens)),
        Some(place) => Err(Stop::Deep(place)),
    }
}

/// A method, and the tokens behind it. Fails with `Deep` where it has more than 400 levels, at its first token, or a fact in it
/// has, at that fact's; with `Syntax` where no method goes on, and with `Memory` where memory runs out.
#[tactic(auto, using(crate::proofs::Joins::settled_got, crate::proofs::Joins::settled_stopped), unfolding(crate::specs::Methods::a_method, iv_facts::specs::FactLevels::limit))]
pub fn a_method(alloc: Global, tokens: &[Lexeme]) -> Result<(MethodText, &[Lexeme]), Stop>
    ensures ok { IfOk result (λ r. a_method tokens.now ≡ got r.0 r.1.now) }
    ensures err { IfErr result (λ e. IsStop e (a_method tokens.now)) }
{
    match method(alloc, LIMIT, tokens) {
        Ok((method, rest)) => whole(method, rest),
        Err(stop) => Err(stop_at(stop, tokens)),
    }
}

/// A method, or none, and the tokens behind it. Fails as [`a_method`] does.
#[tactic(auto, using(iv_facts::proofs::Steps::stopped, iv_facts::proofs::Steps::went_on), unfolding(crate::specs::Methods::opt_method, iv_facts::specs::Found::then_))]
pub fn opt_method(alloc: Global, tokens: &[Lexeme]) -> Result<(Option<MethodText>, &[Lexeme]), Stop>
    ensures ok { IfOk result (λ r. opt_method tokens.now ≡ got r.0 r.1.now) }
    ensures err { IfErr result (λ e. IsStop e (opt_method tokens.now)) }
{
    if begins(tokens, Sort::Name)
        || begins(tokens, Sort::Only(Class::Minus))
        || begins(tokens, Sort::Only(Class::Open))
    {
        let (method, rest) = a_method(alloc, tokens)?;
        return Ok((Some(method), rest));
    }
    Ok((None, tokens))
}
