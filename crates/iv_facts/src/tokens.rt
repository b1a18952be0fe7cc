//! The next tokens.
ghost use Rattle.std.specs.Prelude.{◌≡◌, true, false, IfOk, IfErr, MatchOption};
ghost use Rattle.iv_facts.specs.Found.{got, IsStop, begins, behind, one, place_of, stop_at};

use crate::stop::Stop;
use iv_forms::Lexeme;
use iv_recogniser::Sort;
use iv_text::Pos;

/// Where the first of some tokens begins.
pub fn place(tokens: &[Lexeme]) -> Pos
    ensures { result ≡ place_of tokens.now }
{
    match tokens {
        [] => Pos(0),
        [first, ..] => first.token.at,
    }
}

/// Whether the next token is one of a set.
pub fn begins(tokens: &[Lexeme], sort: Sort) -> bool
    ensures { result ≡ begins sort tokens.now }
{
    match tokens {
        [] => false,
        [first, ..] => sort.has(first.class),
    }
}

/// The tokens behind the next one.
pub fn behind(tokens: &[Lexeme]) -> &[Lexeme]
    ensures { result.now ≡ behind tokens.now }
{
    match tokens {
        [] => tokens,
        [_, rest @ ..] => rest,
    }
}

/// The tokens behind the next one where that is one of a set.
pub fn skip(tokens: &[Lexeme], sort: Sort) -> Option<&[Lexeme]>
    ensures { MatchOption result (begins sort tokens.now ≡ false) (λ rest. (begins sort tokens.now ≡ true) × (rest.now ≡ behind tokens.now)) }
{
    if begins(tokens, sort) {
        Some(behind(tokens))
    } else {
        None
    }
}

/// The next token, where it is one of a set, and those behind it. Fails with `Syntax` where it is none.
pub fn one(tokens: &[Lexeme], sort: Sort) -> Result<(&Lexeme, &[Lexeme]), Stop>
    ensures ok { IfOk result (λ r. one sort tokens.now ≡ got r.0.now r.1.now) }
    ensures err { IfErr result (λ e. IsStop e (one sort tokens.now)) }
{
    match tokens {
        [] => Err(Stop::Syntax),
        [first, rest @ ..] => {
            if sort.has(first.class) {
                Ok((first, rest))
            } else {
                Err(Stop::Syntax)
            }
        }
    }
}

/// The same cause; a part with a limit of its own is too deep where it begins.
pub fn stop_at(stop: Stop, tokens: &[Lexeme]) -> Stop
    ensures { result ≡ stop_at stop tokens.now }
{
    match stop {
        Stop::Syntax => Stop::Syntax,
        Stop::Deep(_) => Stop::Deep(place(tokens)),
        Stop::Memory => Stop::Memory,
    }
}
