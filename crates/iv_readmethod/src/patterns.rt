//! Numbers, and the patterns of a case.
ghost use Rattle.std.specs.Prelude.{◌≡◌, IfOk, IfErr};
ghost use Rattle.iv_facts.specs.Found.{got, IsStop, begins, behind, many};
ghost use Rattle.iv_readmethod.specs.Patterns.{named, opt_nat, cut, bare_pattern, pattern, more_patterns};

use iv_facts::Stop;
use iv_facts::tokens::{begins, behind, one, skip};
use iv_forms::{Cut, Items, Lexeme, Pattern};
use iv_lex::Token;
use iv_recogniser::{Class, Sort};

/// Whether an identifier and `:` come next.
#[tactic(auto, unfolding(crate::specs::Patterns::named))]
pub(crate) fn named(tokens: &[Lexeme]) -> bool
    ensures { result ≡ named tokens.now }
{
    begins(tokens, Sort::Identifier) && begins(behind(tokens), Sort::Only(Class::Colon))
}

/// A number, which is 1 where it is absent.
#[tactic(auto, using(iv_facts::proofs::Steps::stopped, iv_facts::proofs::Steps::went_on), unfolding(crate::specs::Patterns::opt_nat, iv_facts::specs::Found::then_))]
pub(crate) fn opt_nat(tokens: &[Lexeme]) -> Result<(u32, &[Lexeme]), Stop>
    ensures ok { IfOk result (λ r. opt_nat tokens.now ≡ got r.0 r.1.now) }
    ensures err { IfErr result (λ e. IsStop e (opt_nat tokens.now)) }
{
    if !begins(tokens, Sort::Numeral) {
        return Ok((1, tokens));
    }
    let (number, tokens) = one(tokens, Sort::Numeral)?;
    Ok((number.number, tokens))
}

/// How many bindings a pattern leaves.
#[tactic(auto, using(iv_facts::proofs::Steps::stopped, iv_facts::proofs::Steps::went_on), unfolding(crate::specs::Patterns::cut, iv_facts::specs::Found::then_))]
fn cut(tokens: &[Lexeme]) -> Result<(Cut, &[Lexeme]), Stop>
    ensures ok { IfOk result (λ r. cut tokens.now ≡ got r.0 r.1.now) }
    ensures err { IfErr result (λ e. IsStop e (cut tokens.now)) }
{
    match skip(tokens, Sort::Only(Class::Open)) {
        None => Ok((Cut::All, tokens)),
        Some(tokens) => {
            let (_cut, tokens) = one(tokens, Sort::Only(Class::Cut))?;
            let (most, tokens) = opt_nat(tokens)?;
            let (_close, tokens) = one(tokens, Sort::Only(Class::Close))?;
            Ok((Cut::AtMost(most), tokens))
        }
    }
}

/// A pattern behind its name.
#[tactic(auto, using(iv_facts::proofs::Steps::stopped, iv_facts::proofs::Steps::went_on), unfolding(crate::specs::Patterns::bare_pattern, iv_facts::specs::Found::then_))]
fn bare_pattern(tokens: &[Lexeme], name: Option<Token>) -> Result<(Pattern, &[Lexeme]), Stop>
    ensures ok { IfOk result (λ r. bare_pattern name tokens.now ≡ got r.0 r.1.now) }
    ensures err { IfErr result (λ e. IsStop e (bare_pattern name tokens.now)) }
{
    let (term, tokens) = one(tokens, Sort::Term)?;
    let (cut, tokens) = cut(tokens)?;
    let term = term.token.copy()?;
    Ok((Pattern { name, term, cut }, tokens))
}

/// A pattern.
#[tactic(auto, using(iv_facts::proofs::Steps::stopped, iv_facts::proofs::Steps::went_on), unfolding(crate::specs::Patterns::pattern, iv_facts::specs::Found::then_))]
pub(crate) fn pattern(tokens: &[Lexeme]) -> Result<(Pattern, &[Lexeme]), Stop>
    ensures ok { IfOk result (λ r. pattern tokens.now ≡ got r.0 r.1.now) }
    ensures err { IfErr result (λ e. IsStop e (pattern tokens.now)) }
{
    if !named(tokens) {
        return bare_pattern(tokens, None);
    }
    let (name, tokens) = one(tokens, Sort::Identifier)?;
    let name = name.token.copy()?;
    bare_pattern(behind(tokens), Some(name))
}

/// Further patterns behind those that are there.
#[tactic(auto, using(iv_facts::proofs::Steps::many_next, iv_facts::proofs::Steps::many_stop, iv_facts::proofs::Steps::many_end, iv_facts::proofs::Steps::many_stopped), unfolding(crate::specs::Patterns::more_patterns))]
pub(crate) fn more_patterns<'a>(
    tokens: &'a [Lexeme],
    patterns: &mut Items<Pattern>,
) -> Result<&'a [Lexeme], Stop>
    ensures ok { IfOk result (λ r. more_patterns patterns.old tokens.now ≡ got patterns.new r.now) }
    ensures err { IfErr result (λ e. IsStop e (more_patterns patterns.old tokens.now)) }
{
    let mut rest = tokens;
    for _step in tokens {
        if !begins(rest, Sort::Only(Class::And)) {
            break;
        }
        let (next, after) = pattern(behind(rest))?;
        patterns.push(next)?;
        rest = after;
    }
    Ok(rest)
}
