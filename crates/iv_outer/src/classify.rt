ghost use Rattle.std.specs.Prelude.{◌≡◌, ◌-◌, ◌<◌, ◌≤◌, ◌^◌, IfOk, IfErr, length, map};
ghost use Rattle.std.specs.List.{prefix_len};
ghost use Rattle.iv_text.specs.declared.want.Want.TheVariants.{Memory};
ghost use Rattle.iv_outer.specs.Words.{plain};
ghost use Rattle.iv_outer.specs.Classify.{behind_dot, class_of, is_symbolic, lexeme_of, looked_up, number_class, number_in, number_of, other_string_class, spelled, string_class, symbol_class};

use crate::words::{Word, delimiters, signs, words};
use iv_forms::Lexeme;
use iv_lex::{Kind, Token};
use iv_recogniser::Class;
use iv_text::Mem;
use std::alloc::Global;

/// Whether a text has just these ASCII characters.
pub fn spelled(word: &[u8], text: &[char]) -> bool
    ensures { result ≡ spelled word.now text.now }
{
    match word {
        [] => match text {
            [] => true,
            [_, ..] => false,
        },
        [byte, word @ ..] => match text {
            [] => false,
            [c, text @ ..] => *c == *byte as char && spelled(word, text),
        },
    }
}

/// The class that a table has for a text.
pub fn looked_up(table: &[Word], text: &[char]) -> Option<Class>
    ensures { result ≡ looked_up (plain table.now) text.now }
{
    for word in table {
        if spelled(word.text.as_bytes(), text) {
            return Some(word.class);
        }
    }
    None
}

/// What a character is above `0`.
fn digit(c: char) -> u64
    ensures value { result ≡ c - 48 }
    ensures bound { result < 2 ^ 32 }
{
    (c as u32).saturating_sub(48) as u64
}

/// The number that digits are. `None` where it is above 4,294,967,295.
pub fn number_of(text: &[char]) -> Option<u32>
    ensures { result ≡ number_of text.now }
{
    let mut value: u64 = 0;
    for c in text {
        value = value * 10 + digit(*c);
        if value > 4_294_967_295 {
            return None;
        }
    }
    Some(value as u32)
}

/// The class of a number. `None` stands for one that is too great.
pub fn number_class(number: Option<u32>) -> Class
    ensures { result ≡ number_class number }
{
    match number {
        None => Class::Other,
        Some(n) if n < 1000 => Class::Low,
        Some(n) if n == 1000 => Class::Thousand,
        Some(_) => Class::Nat,
    }
}

/// Whether a character may stand in a declared symbol: it is no blank and no `_`.
pub fn is_symbolic(c: char) -> bool
    ensures { result ≡ is_symbolic c }
{
    !((c == ' ' || c == '\t') || (c == '\n' || (c == '\r' || c == '_')))
}

/// The class of a string, by what stands behind its symbol.
fn symbol_class(rest: &[char]) -> Class
    ensures { result ≡ symbol_class rest.now }
{
    if spelled(b"".as_slice(), rest) {
        Class::Plain
    } else if spelled(b"_".as_slice(), rest) || spelled(b" _".as_slice(), rest) {
        Class::Prefix
    } else if spelled(b" ".as_slice(), rest) {
        Class::Spaced
    } else {
        Class::Str
    }
}

/// How many of the first characters may stand in a declared symbol.
fn symbol_length(text: &[char]) -> usize
    ensures length { result ≡ prefix_len is_symbolic text.now }
    ensures within { result ≤ length text.now }
{
    text.iter().take_while(|c| is_symbolic(**c)).count()
}

/// The class of a string that is no form of a judgment.
fn other_string_class(text: &[char]) -> Class
    ensures { result ≡ other_string_class text.now }
{
    let count = symbol_length(text);
    if count == 0 {
        Class::Str
    } else {
        symbol_class(&text[count..])
    }
}

/// The class of a string.
#[tactic(auto, unfolding(crate::specs::Classify::string_class))]
pub fn string_class(text: &[char]) -> Class
    ensures { result ≡ string_class text.now }
{
    if spelled(b"_".as_slice(), text) || spelled(b"(_)".as_slice(), text) {
        Class::Judging
    } else {
        other_string_class(text)
    }
}

/// What stands behind the first dot.
fn behind_dot(text: &[char]) -> &[char]
    ensures { result.now ≡ behind_dot text.now }
{
    match text {
        [] => text,
        [c, rest @ ..] => { if *c == '.' { rest } else { behind_dot(rest) } }
    }
}

/// The class of a token, by its kind and its text.
#[tactic(auto, unfolding(crate::specs::Classify::class_of))]
pub fn class_of(kind: Kind, text: &[char]) -> Class
    ensures { result ≡ class_of kind text.now }
{
    match kind {
        Kind::Ident => looked_up(words(), text).unwrap_or(Class::Ident),
        Kind::Long => Class::Long,
        Kind::Nat => number_class(number_of(text)),
        Kind::Var => match number_of(behind_dot(text)) {
            Some(_) => Class::Var,
            None => Class::Other,
        },
        Kind::Tvar => Class::Tvar,
        Kind::Str => string_class(text),
        Kind::Cart => Class::Cart,
        Kind::Sym => looked_up(signs(), text).unwrap_or(Class::Other),
        Kind::Single => looked_up(delimiters(), text).unwrap_or(Class::Other),
        Kind::Bad => Class::Other,
    }
}

/// The number of a token, 0 where it is none.
#[tactic(auto, unfolding(crate::specs::Classify::number_in))]
fn number_in(kind: Kind, text: &[char]) -> u32
    ensures { result ≡ number_in kind text.now }
{
    match kind {
        Kind::Nat => number_of(text).unwrap_or(0),
        _ => 0,
    }
}

/// A token with its class and its number. Fails where memory runs out.
pub fn lexeme_of(token: &Token) -> Mem<Lexeme>
    ensures ok { IfOk result (λ l. l ≡ lexeme_of token.now) }
    ensures memory { IfErr result (λ w. w ≡ Memory) }
{
    let text = token.text.as_slice();
    let class = class_of(token.kind, text);
    let number = number_in(token.kind, text);
    Ok(Lexeme {
        class,
        token: token.copy()?,
        number,
    })
}

/// Tokens with their classes and numbers. Fails where memory runs out.
pub fn lexemes(alloc: Global, tokens: &[Token]) -> Mem<Vec<Lexeme>>
    ensures ok { IfOk result (λ v. v.items ≡ map lexeme_of tokens.now) }
    ensures memory { IfErr result (λ w. w ≡ Memory) }
{
    let mut found = Vec::new(alloc);
    for token in tokens {
        found.push(lexeme_of(token)?)?;
    }
    Ok(found)
}
