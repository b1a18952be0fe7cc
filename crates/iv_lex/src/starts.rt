ghost use Rattle.std.specs.Prelude.{◌≡◌, ◌≤◌, ◌<◌, length, IfSome, ◌&&◌};
ghost use Rattle.iv_lex.specs.Start.{closed_start, is_mark, measured, or_else, sign_start, start_at, word_start};

use crate::forms::{
    alphas, digits_more, ident_more, is_named, name_more, spells, starts_with, string_more,
    symbols_more, var_more,
};
use crate::letters::{Letter, rest_from};
use crate::nests::{Nest, nested_length};

/// What may begin at a letter.
#[derive(Clone, Copy, Debug, PartialEq, Eq)]
pub enum Start {
    /// A space, tab, line feed or carriage return.
    Blank,
    /// A comment.
    Comment,
    /// A cartouche.
    Cartouche,
    /// A string.
    Quote,
    /// An identifier, or several with dots between them.
    Name,
    /// A number.
    Digits,
    /// A `?` and an identifier.
    Variable,
    /// A `'` and an identifier.
    TypeVariable,
    /// A symbol `\<name>`.
    Named,
    /// One character of the table of symbols.
    Sign,
    /// A run of symbols.
    Run,
    /// `::` or `..`.
    Double,
    /// A delimiter of one character.
    Single,
    /// No token.
    Nothing,
}

impl Start {
    /// This, or the other where this is nothing.
    pub(crate) fn or_else(self, other: Start) -> Start
        ensures { result ≡ or_else self other }
    {
        match self {
            Start::Nothing => other,
            start => start,
        }
    }

    /// How many letters what begins at the front takes, at most. `None` where it has a closing and isn't closed.
    pub(crate) fn measured(self, letters: &[Letter]) -> Option<usize>
        requires start { self ≡ start_at letters.now }
        requires some { 0 < length letters.now }
        ensures length { result ≡ measured self letters.now }
        ensures within { IfSome result (λ n. n ≤ length letters.now) }
        ensures some { IfSome result (λ n. 0 < n) }
    {
        let rest = rest_from(letters, 1);
        match self {
            Start::Comment => nested_length(Nest::Comment, letters),
            Start::Cartouche => nested_length(Nest::Cartouche, letters),
            Start::Quote => string_more(rest).map(|more| more + 1),
            Start::Name => Some(1 + name_more(rest)),
            Start::Digits => Some(1 + digits_more(rest)),
            Start::Variable => Some(1 + var_more(rest)),
            Start::TypeVariable => Some(1 + ident_more(rest)),
            Start::Run => Some(1 + symbols_more(rest)),
            Start::Named => Some(3 + alphas(rest_from(letters, 2))),
            Start::Double => Some(2),
            _ => Some(1),
        }
    }
}

/// Whether this character and then the start of an identifier stand first.
pub(crate) fn is_mark(letters: &[Letter], c: char) -> bool
    ensures { result ≡ is_mark c letters.now }
{
    match letters {
        [mark, start, ..] => mark.is(c) && start.is_start(),
        _ => false,
    }
}

/// What begins here, where it has a closing.
pub(crate) fn closed_start(letters: &[Letter]) -> Start
    ensures { result ≡ closed_start letters.now }
{
    if spells(b"(*".as_slice(), letters) {
        Start::Comment
    } else if Nest::Cartouche.opening(letters) > 0 {
        Start::Cartouche
    } else if starts_with(letters, '"') {
        Start::Quote
    } else {
        Start::Nothing
    }
}

/// What begins here, where it has an identifier or a number.
pub(crate) fn word_start(letters: &[Letter]) -> Start
    ensures { result ≡ word_start letters.now }
{
    match letters {
        [letter, ..] if letter.is_start() => Start::Name,
        [letter, ..] if letter.is_digit() => Start::Digits,
        _ if is_mark(letters, '?') => Start::Variable,
        _ if is_mark(letters, '\'') => Start::TypeVariable,
        _ => Start::Nothing,
    }
}

/// What begins here, where it is a symbol or a delimiter.
pub(crate) fn sign_start(letters: &[Letter]) -> Start
    ensures { result ≡ sign_start letters.now }
{
    let doubled = spells(b"::".as_slice(), letters) || spells(b"..".as_slice(), letters);
    match letters {
        _ if is_named(letters) => Start::Named,
        [letter, ..] if letter.is_sign() => Start::Sign,
        [letter, ..] if letter.is_symbolic() => Start::Run,
        _ if doubled => Start::Double,
        [letter, ..] if letter.is_single() => Start::Single,
        _ => Start::Nothing,
    }
}

/// What begins here.
pub(crate) fn start_at(letters: &[Letter]) -> Start
    ensures { result ≡ start_at letters.now }
{
    match letters {
        [letter, ..] if letter.is_blank() => Start::Blank,
        _ => closed_start(letters).or_else(word_start(letters).or_else(sign_start(letters))),
    }
}
