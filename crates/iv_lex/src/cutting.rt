ghost use Rattle.std.specs.Prelude.{◌≡◌, ◌≤◌, ◌<◌, ◌^◌, ◌++◌, length, IfOk, IfErr, OnOk};
ghost use Rattle.iv_text.specs.declared.want.Want.TheVariants.{Memory};
ghost use Rattle.std.specs.List.{list_any};
ghost use Rattle.iv_lex.specs.Cut.{IsCut};
ghost use Rattle.iv_lex.specs.Letter.{is_char, letters_of};
ghost use Rattle.iv_lex.specs.Place.{AreInOrder};
ghost use Rattle.iv_lex.specs.Token.{all_chars, count_at, first_at, kind_at, kind_by, last_end, token_list, token_of, tokens_from, tokens_of};

use crate::letters::{Letter, first_items, letters, rest_from};
use crate::spellings::text_of;
use crate::starts::{Start, start_at};
use iv_text::{Mem, Pos, Text};
use std::alloc::Global;

/// What a token is.
#[derive(Clone, Copy, Debug, PartialEq, Eq)]
pub enum Kind {
    /// A character that begins identifiers, and then such as go on with them.
    Ident,
    /// Identifiers with dots between them.
    Long,
    /// Digits.
    Nat,
    /// A `?` and an identifier, and maybe a dot and a number.
    Var,
    /// A `'` and an identifier.
    Tvar,
    /// From a `"` to the next that no backslash escapes.
    Str,
    /// From an opening of a cartouche to its closing.
    Cart,
    /// A run of symbols, `\<name>` or a character of the table of symbols.
    Sym,
    /// A delimiter.
    Single,
    /// An unclosed string, comment or cartouche, up to the end; a string or cartouche with a byte that isn't UTF-8;
    /// or a letter that begins nothing else.
    Bad,
}

/// A token of a document.
#[derive(Drop)]
pub struct Token {
    /// What it is.
    pub kind: Kind,
    /// Its text: a string's without its quotes and escapes, a cartouche's without its outer brackets, a symbol's
    /// printed spelling; empty for a bad token.
    pub text: Text,
    /// The offset of its first byte.
    pub at: Pos,
    /// The offset behind its last byte.
    pub end: Pos,
}

impl Token {
    /// An equal token, which shares its text. Takes no memory; fails where the count of owners is full.
    pub fn copy(&self) -> Mem<Token>
        ensures ok { IfOk result (λ t. t ≡ self.now) }
        ensures memory { IfErr result (λ w. w ≡ Memory) }
    {
        Ok(Token {
            kind: self.kind,
            text: self.text.copy()?,
            at: self.at,
            end: self.end,
        })
    }
}

/// Whether all of the letters are characters.
pub(crate) fn all_chars(letters: &[Letter]) -> bool
    ensures { result ≡ all_chars letters.now }
{
    letters.iter().all(|letter| letter.value.is_some())
}

/// Whether a dot is among the letters.
pub(crate) fn has_dot(letters: &[Letter]) -> bool
    ensures { result ≡ list_any (is_char 46) letters.now }
{
    letters.iter().any(|letter| letter.is('.'))
}

/// The kind of the token that these letters are, of a form that is closed. `None` where they are a blank or a comment.
pub(crate) fn kind_by(start: Start, letters: &[Letter]) -> Option<Kind>
    ensures { result ≡ kind_by start letters.now }
{
    match start {
        Start::Blank | Start::Comment => None,
        Start::Cartouche if all_chars(letters) => Some(Kind::Cart),
        Start::Quote if all_chars(letters) => Some(Kind::Str),
        Start::Cartouche | Start::Quote | Start::Nothing => Some(Kind::Bad),
        Start::Name if has_dot(letters) => Some(Kind::Long),
        Start::Name => Some(Kind::Ident),
        Start::Digits => Some(Kind::Nat),
        Start::Variable => Some(Kind::Var),
        Start::TypeVariable => Some(Kind::Tvar),
        Start::Named | Start::Sign | Start::Run => Some(Kind::Sym),
        Start::Double | Start::Single => Some(Kind::Single),
    }
}

/// The kind of the token at the front, `None` where a blank or a comment stands there, and how many letters it takes.
#[tactic(auto, unfolding(crate::specs::Token::kind_at, crate::specs::Token::count_at))]
pub(crate) fn front(letters: &[Letter]) -> (Option<Kind>, usize)
    requires { 0 < length letters.now }
    ensures kind { result.0 ≡ kind_at letters.now }
    ensures count { result.1 ≡ count_at letters.now }
    ensures within { result.1 ≤ length letters.now }
    ensures some { 0 < result.1 }
{
    let start = start_at(letters);
    match start.measured(letters) {
        Some(count) => (kind_by(start, first_items(letters, count)), count),
        None => (Some(Kind::Bad), letters.len()),
    }
}

/// Where the first of some letters begins.
pub(crate) fn first_at(letters: &[Letter]) -> Pos
    ensures { result ≡ first_at letters.now }
{
    match letters {
        [] => Pos(0),
        [letter, ..] => letter.at,
    }
}

/// Where the last of some letters ends.
pub(crate) fn last_end(letters: &[Letter]) -> Pos
    ensures { result ≡ last_end letters.now }
{
    let count = letters.len();
    if count == 0 {
        return Pos(0);
    }
    letters[count - 1].end
}

/// The token of this kind that is made of some letters. Fails where memory runs out.
#[tactic(auto, unfolding(crate::specs::Token::token_of))]
pub(crate) fn token_of(alloc: Global, kind: Kind, letters: &[Letter]) -> Mem<Token>
    ensures ok { IfOk result (λ t. t ≡ token_of kind letters.now) }
    ensures memory { IfErr result (λ w. w ≡ Memory) }
{
    let chars = text_of(alloc, kind, letters)?;
    let text = Text::from_vec(alloc, chars)?;
    Ok(Token {
        kind,
        text,
        at: first_at(letters),
        end: last_end(letters),
    })
}

/// Puts the token that is made of some letters behind the others, if one is. Fails where memory runs out.
pub(crate) fn push_token(
    alloc: Global,
    found: &mut Vec<Token>,
    kind: Option<Kind>,
    letters: &[Letter],
) -> Mem<()>
    ensures ok { OnOk result (found.new.items ≡ found.old.items ++ token_list kind letters.now) }
    ensures memory { IfErr result (λ w. w ≡ Memory) }
{
    if let Some(kind) = kind {
        found.push(token_of(alloc, kind, letters)?)?;
    }
    Ok(())
}

/// The tokens of some letters, in order. Fails where memory runs out.
pub(crate) fn cut(alloc: Global, letters: &[Letter]) -> Mem<Vec<Token>>
    ensures ok { IfOk result (λ v. v.items ≡ tokens_from 0 letters.now) }
    ensures memory { IfErr result (λ w. w ≡ Memory) }
{
    let mut found = Vec::new(alloc);
    let mut at = 0;
    while at < letters.len() {
        let rest = rest_from(letters, at);
        let (kind, count) = front(rest);
        push_token(alloc, &mut found, kind, first_items(rest, count))?;
        at += count;
    }
    Ok(found)
}

/// The tokens of a document, in order: each is the longest that stands at its place, and between them stand
/// blanks and whole comments. Fails by `Memory` where memory runs out.
pub fn tokens(alloc: Global, bytes: &[u8]) -> Mem<Vec<Token>>
    requires { length bytes.now < 2 ^ 32 }
    ensures ok { IfOk result (λ v. v.items ≡ tokens_of bytes.now) }
    ensures cut { IfOk result (λ v. IsCut (letters_of bytes.now) v.items) }
    ensures in_order { IfOk result (λ v. AreInOrder 0 (length bytes.now) v.items) }
    ensures memory { IfErr result (λ w. w ≡ Memory) }
{
    let letters = letters(alloc, bytes)?;
    let found = cut(alloc, &letters)?;
    Ok(found)
}
