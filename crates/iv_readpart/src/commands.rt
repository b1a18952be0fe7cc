//! Axioms, the parts of `method`, statements, notes, and what is obtained.
ghost use Rattle.std.specs.Prelude.{◌≡◌, [], ◌∷◌, IfOk, IfErr};
ghost use Rattle.iv_facts.specs.Found.{got, IsStop};
ghost use Rattle.iv_facts.specs.declared.stop.Stop.TheVariants.{Memory};
ghost use Rattle.iv_readpart.specs.Commands.{an_axiom, more_axioms, axioms, begins_part, part, parts, fixes, assumes, begins_long, statement, note_name, begins_note, goes_noted, next_noted, more_noted, noted, note_group, first_note, more_notes, notes, names_ahead, obtained};

use iv_facts::Stop;
use iv_facts::facts::a_fact;
use iv_facts::props::{Named, named_atts, opt_label, prop, props, some_of, text_of, vars};
use iv_facts::tokens::{begins, behind, one};
use iv_forms::{
    Axiom, Fact, Group, Items, Lexeme, NoteGroup, Obtained, Parts, Statement, VarGroup,
};
use iv_recogniser::{Class, Sort};
use std::alloc::Global;

/// An axiom.
#[tactic(auto, using(iv_facts::proofs::Steps::stopped, iv_facts::proofs::Steps::went_on), unfolding(crate::specs::Commands::an_axiom, iv_facts::specs::Found::then_))]
fn an_axiom(alloc: Global, tokens: &[Lexeme]) -> Result<(Axiom, &[Lexeme]), Stop>
    ensures ok { IfOk result (λ r. an_axiom tokens.now ≡ got r.0 r.1.now) }
    ensures err { IfErr result (λ e. IsStop e (an_axiom tokens.now)) }
{
    let (named, tokens) = named_atts(alloc, tokens)?;
    let (_colon, tokens) = one(tokens, Sort::Only(Class::Colon))?;
    let (term, tokens) = text_of(tokens, Sort::Term)?;
    let axiom = Axiom {
        name: named.name,
        atts: named.atts,
        term,
    };
    Ok((axiom, tokens))
}

/// Further axioms, each behind `and`.
#[tactic(auto, using(iv_facts::proofs::Steps::many_next, iv_facts::proofs::Steps::many_stop, iv_facts::proofs::Steps::many_end, iv_facts::proofs::Steps::many_stopped), unfolding(crate::specs::Commands::more_axioms))]
fn more_axioms<'a>(
    alloc: Global,
    tokens: &'a [Lexeme],
    found: &mut Items<Axiom>,
) -> Result<&'a [Lexeme], Stop>
    ensures ok { IfOk result (λ r. more_axioms found.old tokens.now ≡ got found.new r.now) }
    ensures err { IfErr result (λ e. IsStop e (more_axioms found.old tokens.now)) }
{
    let mut rest = tokens;
    for _step in tokens {
        if !begins(rest, Sort::Only(Class::And)) {
            break;
        }
        let (next, after) = an_axiom(alloc, behind(rest))?;
        found.push(next)?;
        rest = after;
    }
    Ok(rest)
}

/// The axioms of `axiomatization`, or none.
#[tactic(auto, using(iv_facts::proofs::Steps::stopped, iv_facts::proofs::Steps::went_on), unfolding(crate::specs::Commands::axioms, iv_facts::specs::Found::then_))]
pub fn axioms(alloc: Global, tokens: &[Lexeme]) -> Result<(Items<Axiom>, &[Lexeme]), Stop>
    ensures ok { IfOk result (λ r. axioms tokens.now ≡ got r.0 r.1.now) }
    ensures err { IfErr result (λ e. IsStop e (axioms tokens.now)) }
{
    let mut found = Items::new(alloc);
    if !begins(tokens, Sort::Only(Class::Where)) {
        return Ok((found, tokens));
    }
    let (first, tokens) = an_axiom(alloc, behind(tokens))?;
    found.push(first)?;
    let tokens = more_axioms(alloc, tokens, &mut found)?;
    Ok((found, tokens))
}

/// Whether a part of `method` stands ahead.
#[tactic(auto, unfolding(crate::specs::Commands::begins_part))]
fn begins_part(tokens: &[Lexeme]) -> bool
    ensures { result ≡ begins_part tokens.now }
{
    begins(tokens, Sort::Only(Class::Methods))
        || begins(tokens, Sort::Only(Class::Uses))
        || begins(tokens, Sort::Only(Class::Declares))
}

/// One more part of `method`.
#[tactic(auto, using(iv_facts::proofs::Steps::stopped, iv_facts::proofs::Steps::went_on), unfolding(crate::specs::Commands::part, iv_facts::specs::Found::then_))]
fn part(alloc: Global, parts: Parts, tokens: &[Lexeme]) -> Result<(Parts, &[Lexeme]), Stop>
    ensures ok { IfOk result (λ r. part parts tokens.now ≡ got r.0 r.1.now) }
    ensures err { IfErr result (λ e. IsStop e (part parts tokens.now)) }
{
    let Parts {
        methods,
        uses,
        declares,
    } = parts;
    let (names, rest) = some_of(alloc, Sort::Identifier, behind(tokens))?;
    if begins(tokens, Sort::Only(Class::Methods)) {
        let parts = Parts {
            methods: names,
            uses,
            declares,
        };
        return Ok((parts, rest));
    }
    if begins(tokens, Sort::Only(Class::Uses)) {
        let parts = Parts {
            methods,
            uses: names,
            declares,
        };
        return Ok((parts, rest));
    }
    let parts = Parts {
        methods,
        uses,
        declares: names,
    };
    Ok((parts, rest))
}

/// The parts of `method`.
#[tactic(auto, using(iv_facts::proofs::Steps::fold_next, iv_facts::proofs::Steps::fold_stop, iv_facts::proofs::Steps::fold_end, iv_facts::proofs::Steps::fold_stopped), unfolding(crate::specs::Commands::parts))]
pub fn parts(alloc: Global, tokens: &[Lexeme]) -> Result<(Parts, &[Lexeme]), Stop>
    ensures ok { IfOk result (λ r. parts tokens.now ≡ got r.0 r.1.now) }
    ensures err { IfErr result (λ e. IsStop e (parts tokens.now)) }
{
    let mut found = Parts {
        methods: Items::new(alloc),
        uses: Items::new(alloc),
        declares: Items::new(alloc),
    };
    let mut rest = tokens;
    for _step in tokens {
        if !begins_part(rest) {
            break;
        }
        let (next, after) = part(alloc, found, rest)?;
        found = next;
        rest = after;
    }
    Ok((found, rest))
}

/// The names that a lemma fixes, or none.
#[tactic(auto, using(iv_facts::proofs::Steps::stopped, iv_facts::proofs::Steps::went_on), unfolding(crate::specs::Commands::fixes, iv_facts::specs::Found::then_))]
fn fixes(alloc: Global, tokens: &[Lexeme]) -> Result<(Items<VarGroup>, &[Lexeme]), Stop>
    ensures ok { IfOk result (λ r. fixes tokens.now ≡ got r.0 r.1.now) }
    ensures err { IfErr result (λ e. IsStop e (fixes tokens.now)) }
{
    if begins(tokens, Sort::Only(Class::Fixes)) {
        vars(alloc, behind(tokens))
    } else {
        Ok((Items::new(alloc), tokens))
    }
}

/// What a lemma assumes, or nothing.
#[tactic(auto, using(iv_facts::proofs::Steps::stopped, iv_facts::proofs::Steps::went_on), unfolding(crate::specs::Commands::assumes, iv_facts::specs::Found::then_))]
fn assumes(alloc: Global, tokens: &[Lexeme]) -> Result<(Items<Group>, &[Lexeme]), Stop>
    ensures ok { IfOk result (λ r. assumes tokens.now ≡ got r.0 r.1.now) }
    ensures err { IfErr result (λ e. IsStop e (assumes tokens.now)) }
{
    if begins(tokens, Sort::Only(Class::Assumes)) {
        props(alloc, behind(tokens))
    } else {
        Ok((Items::new(alloc), tokens))
    }
}

/// Whether the long form of a statement stands ahead, behind its label.
#[tactic(auto, unfolding(crate::specs::Commands::begins_long))]
fn begins_long(tokens: &[Lexeme]) -> bool
    ensures { result ≡ begins_long tokens.now }
{
    begins(tokens, Sort::Only(Class::Fixes))
        || begins(tokens, Sort::Only(Class::Assumes))
        || begins(tokens, Sort::Only(Class::Shows))
}

/// What a lemma states.
#[tactic(auto, using(iv_facts::proofs::Steps::stopped, iv_facts::proofs::Steps::went_on), unfolding(crate::specs::Commands::statement, iv_facts::specs::Found::then_))]
pub fn statement(alloc: Global, tokens: &[Lexeme]) -> Result<(Statement, &[Lexeme]), Stop>
    ensures ok { IfOk result (λ r. statement tokens.now ≡ got r.0 r.1.now) }
    ensures err { IfErr result (λ e. IsStop e (statement tokens.now)) }
{
    let (label, tokens) = opt_label(alloc, tokens)?;
    if !begins_long(tokens) {
        let (prop, tokens) = prop(alloc, tokens)?;
        return Ok((Statement::Short(label, prop), tokens));
    }
    let (names, tokens) = fixes(alloc, tokens)?;
    let (groups, tokens) = assumes(alloc, tokens)?;
    let (_shows, tokens) = one(tokens, Sort::Only(Class::Shows))?;
    let (prop, tokens) = prop(alloc, tokens)?;
    Ok((Statement::Long(label, names, groups, prop), tokens))
}

/// A name with attributes, and `=`.
#[tactic(auto, using(iv_facts::proofs::Steps::stopped, iv_facts::proofs::Steps::went_on), unfolding(crate::specs::Commands::note_name, iv_facts::specs::Found::then_))]
pub fn note_name(alloc: Global, tokens: &[Lexeme]) -> Result<(Named, &[Lexeme]), Stop>
    ensures ok { IfOk result (λ r. note_name tokens.now ≡ got r.0 r.1.now) }
    ensures err { IfErr result (λ e. IsStop e (note_name tokens.now)) }
{
    let (named, tokens) = named_atts(alloc, tokens)?;
    let (_equal, tokens) = one(tokens, Sort::Only(Class::Equal))?;
    Ok((named, tokens))
}

/// Whether a name, attributes and `=` stand ahead. Fails where memory runs out.
#[tactic(auto, unfolding(crate::specs::Commands::begins_note))]
fn begins_note(alloc: Global, tokens: &[Lexeme]) -> Result<bool, Stop>
    ensures ok { IfOk result (λ b. b ≡ begins_note tokens.now) }
    ensures memory { IfErr result (λ e. e ≡ Memory) }
{
    match note_name(alloc, tokens) {
        Ok(_named) => Ok(true),
        Err(Stop::Syntax) => Ok(false),
        Err(Stop::Deep(_at)) => Ok(false),
        Err(Stop::Memory) => Err(Stop::Memory),
    }
}

/// Whether facts go on; those of `note` end before `and`, a name and `=`. Fails where memory runs out.
#[tactic(auto, unfolding(crate::specs::Commands::goes_noted))]
fn goes_noted(alloc: Global, tokens: &[Lexeme]) -> Result<bool, Stop>
    ensures ok { IfOk result (λ b. b ≡ goes_noted tokens.now) }
    ensures memory { IfErr result (λ e. e ≡ Memory) }
{
    if begins(tokens, Sort::Name) {
        return Ok(true);
    }
    if !begins(tokens, Sort::Only(Class::And)) {
        return Ok(false);
    }
    Ok(!begins_note(alloc, behind(tokens))?)
}

/// The next fact, behind `and` or not.
#[tactic(auto, using(iv_facts::proofs::Steps::stopped, iv_facts::proofs::Steps::went_on), unfolding(crate::specs::Commands::next_noted, iv_facts::specs::Found::then_))]
fn next_noted(alloc: Global, tokens: &[Lexeme]) -> Result<(Fact, &[Lexeme]), Stop>
    ensures ok { IfOk result (λ r. next_noted tokens.now ≡ got r.0 r.1.now) }
    ensures err { IfErr result (λ e. IsStop e (next_noted tokens.now)) }
{
    if begins(tokens, Sort::Only(Class::And)) {
        a_fact(alloc, behind(tokens))
    } else {
        a_fact(alloc, tokens)
    }
}

/// Further facts of a note.
#[tactic(auto, using(iv_facts::proofs::Steps::many_next, iv_facts::proofs::Steps::many_stop, iv_facts::proofs::Steps::many_end, iv_facts::proofs::Steps::many_stopped), unfolding(crate::specs::Commands::more_noted))]
fn more_noted<'a>(
    alloc: Global,
    tokens: &'a [Lexeme],
    found: &mut Items<Fact>,
) -> Result<&'a [Lexeme], Stop>
    ensures ok { IfOk result (λ r. more_noted found.old tokens.now ≡ got found.new r.now) }
    ensures err { IfErr result (λ e. IsStop e (more_noted found.old tokens.now)) }
{
    let mut rest = tokens;
    for _step in tokens {
        if !goes_noted(alloc, rest)? {
            break;
        }
        let (next, after) = next_noted(alloc, rest)?;
        found.push(next)?;
        rest = after;
    }
    Ok(rest)
}

/// The facts of a note.
#[tactic(auto, using(iv_facts::proofs::Steps::stopped, iv_facts::proofs::Steps::went_on), unfolding(crate::specs::Commands::noted, iv_facts::specs::Found::then_))]
fn noted(alloc: Global, tokens: &[Lexeme]) -> Result<(Items<Fact>, &[Lexeme]), Stop>
    ensures ok { IfOk result (λ r. noted tokens.now ≡ got r.0 r.1.now) }
    ensures err { IfErr result (λ e. IsStop e (noted tokens.now)) }
{
    let mut found = Items::new(alloc);
    let (first, tokens) = a_fact(alloc, tokens)?;
    found.push(first)?;
    let tokens = more_noted(alloc, tokens, &mut found)?;
    Ok((found, tokens))
}

/// Facts under a name.
#[tactic(auto, using(iv_facts::proofs::Steps::stopped, iv_facts::proofs::Steps::went_on), unfolding(crate::specs::Commands::note_group, iv_facts::specs::Found::then_))]
fn note_group(alloc: Global, tokens: &[Lexeme]) -> Result<(NoteGroup, &[Lexeme]), Stop>
    ensures ok { IfOk result (λ r. note_group tokens.now ≡ got r.0 r.1.now) }
    ensures err { IfErr result (λ e. IsStop e (note_group tokens.now)) }
{
    let (named, tokens) = note_name(alloc, tokens)?;
    let (facts, tokens) = noted(alloc, tokens)?;
    let group = NoteGroup {
        name: Some(named.name),
        atts: named.atts,
        facts,
    };
    Ok((group, tokens))
}

/// The first facts of a note, which need no name.
#[tactic(auto, using(iv_facts::proofs::Steps::stopped, iv_facts::proofs::Steps::went_on), unfolding(crate::specs::Commands::first_note, iv_facts::specs::Found::then_))]
fn first_note(alloc: Global, tokens: &[Lexeme]) -> Result<(NoteGroup, &[Lexeme]), Stop>
    ensures ok { IfOk result (λ r. first_note tokens.now ≡ got r.0 r.1.now) }
    ensures err { IfErr result (λ e. IsStop e (first_note tokens.now)) }
{
    if begins_note(alloc, tokens)? {
        return note_group(alloc, tokens);
    }
    let (facts, tokens) = noted(alloc, tokens)?;
    let group = NoteGroup {
        name: None,
        atts: Items::new(alloc),
        facts,
    };
    Ok((group, tokens))
}

/// Further groups of facts, each behind `and`.
#[tactic(auto, using(iv_facts::proofs::Steps::many_next, iv_facts::proofs::Steps::many_stop, iv_facts::proofs::Steps::many_end, iv_facts::proofs::Steps::many_stopped), unfolding(crate::specs::Commands::more_notes))]
fn more_notes<'a>(
    alloc: Global,
    tokens: &'a [Lexeme],
    found: &mut Items<NoteGroup>,
) -> Result<&'a [Lexeme], Stop>
    ensures ok { IfOk result (λ r. more_notes found.old tokens.now ≡ got found.new r.now) }
    ensures err { IfErr result (λ e. IsStop e (more_notes found.old tokens.now)) }
{
    let mut rest = tokens;
    for _step in tokens {
        if !begins(rest, Sort::Only(Class::And)) {
            break;
        }
        let (next, after) = note_group(alloc, behind(rest))?;
        found.push(next)?;
        rest = after;
    }
    Ok(rest)
}

/// The groups of facts of a note.
#[tactic(auto, using(iv_facts::proofs::Steps::stopped, iv_facts::proofs::Steps::went_on), unfolding(crate::specs::Commands::notes, iv_facts::specs::Found::then_))]
pub fn notes(alloc: Global, tokens: &[Lexeme]) -> Result<(Items<NoteGroup>, &[Lexeme]), Stop>
    ensures ok { IfOk result (λ r. notes tokens.now ≡ got r.0 r.1.now) }
    ensures err { IfErr result (λ e. IsStop e (notes tokens.now)) }
{
    let mut found = Items::new(alloc);
    let (first, tokens) = first_note(alloc, tokens)?;
    found.push(first)?;
    let tokens = more_notes(alloc, tokens, &mut found)?;
    Ok((found, tokens))
}

/// Whether behind names and `and` stands `::` or `where`.
fn names_ahead(tokens: &[Lexeme]) -> bool
    ensures { result ≡ names_ahead tokens.now }
{
    for token in tokens {
        if Sort::Identifier.has(token.class) || Sort::Only(Class::And).has(token.class) {
            continue;
        }
        return Sort::Only(Class::Colons).has(token.class)
            || Sort::Only(Class::Where).has(token.class);
    }
    false
}

/// What is obtained.
#[tactic(auto, using(iv_facts::proofs::Steps::stopped, iv_facts::proofs::Steps::went_on), unfolding(crate::specs::Commands::obtained, iv_facts::specs::Found::then_))]
pub fn obtained(alloc: Global, tokens: &[Lexeme]) -> Result<(Obtained, &[Lexeme]), Stop>
    ensures ok { IfOk result (λ r. obtained tokens.now ≡ got r.0 r.1.now) }
    ensures err { IfErr result (λ e. IsStop e (obtained tokens.now)) }
{
    if !names_ahead(tokens) {
        let (props, tokens) = props(alloc, tokens)?;
        let obtained = Obtained {
            names: Items::new(alloc),
            props,
        };
        return Ok((obtained, tokens));
    }
    let (names, tokens) = vars(alloc, tokens)?;
    let (_where, tokens) = one(tokens, Sort::Only(Class::Where))?;
    let (props, tokens) = props(alloc, tokens)?;
    Ok((Obtained { names, props }, tokens))
}
