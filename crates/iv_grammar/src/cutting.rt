//! Inner texts cut into tokens.
ghost use Rattle.std.specs.Prelude.{◌≡◌, ◌≤◌, ◌<◌, ◌++◌, ◌∷◌, [], List, length, drop, take, IfOk, IfErr, OnOk};
ghost use Rattle.iv_text.specs.declared.want.Want.TheVariants.{Memory};
ghost use Rattle.iv_grammar.specs.Measure.{word_of};
ghost use Rattle.iv_grammar.specs.Cut.{IsCut, IsFront, Pushed};

use crate::sign::Sign;
use crate::symbols::Symbols;
use crate::words::{Word, first_items, is_blank, rest_from, word_count, word_of};
use iv_text::{Mem, Text, Want};
use std::alloc::Global;

/// A token of an inner text.
#[derive(Drop)]
pub enum Token {
    /// A word that is no symbol, as it is written.
    Word(Word, Text),
    /// A delimiter or a declared symbol.
    Sign(Sign),
}

/// Why a text has no tokens.
#[derive(Clone, Copy, Debug, PartialEq, Eq)]
pub enum NoTokens {
    /// At some place no token begins.
    Stray,
    /// There is no memory.
    Memory,
}

impl From<Want> for NoTokens {
    ghost use Rattle.std.specs.Prelude.{◌≡◌};
    ghost use Rattle.iv_grammar.specs.declared.cutting.NoTokens.TheVariants.{Memory};

    ghost from_gives = { λ _ e. e ≡ Memory };

    fn from(_want: Want) -> NoTokens {
        NoTokens::Memory
    }
}

/// What stands in front, and how many characters it takes.
#[derive(Clone, Copy, Debug, PartialEq, Eq)]
pub enum Front {
    /// A symbol.
    Sign(usize, Sign),
    /// A word.
    Word(usize),
    /// No token.
    Nothing,
}

/// What stands in front: the longest symbol or word, and of two that are equally long the symbol.
pub(crate) fn first_token(symbols: &Symbols, chars: &[char]) -> Front
    ensures { IsFront symbols.now chars.now result }
{
    let count = word_count(chars);
    match symbols.longest(chars) {
        Some((length, sign)) => {
            if count <= length {
                Front::Sign(length, sign)
            } else {
                Front::Word(count)
            }
        }
        None => {
            if count > 0 {
                Front::Word(count)
            } else {
                Front::Nothing
            }
        }
    }
}

/// Puts a token behind the others. Fails where memory runs out.
pub(crate) fn push(found: &mut Vec<Token>, token: Token) -> Mem<()>
    ensures ok { OnOk result (found.new.items ≡ found.old.items ++ token ∷ []) }
    ensures memory { IfErr result (λ w. w ≡ Memory) }
{
    found.push(token)?;
    Ok(())
}

/// Puts the word that some characters are behind the other tokens. Fails where memory runs out.
pub(crate) fn push_word(alloc: Global, found: &mut Vec<Token>, chars: &[char]) -> Mem<()>
    ensures ok { OnOk result (found.new.items ≡ found.old.items ++ Token.Word (word_of chars.now) chars.now ∷ []) }
    ensures memory { IfErr result (λ w. w ≡ Memory) }
{
    let text = Text::from_slice(alloc, chars)?;
    push(found, Token::Word(word_of(chars), text))
}

/// Puts the token in front behind the others, and says how many characters it takes; a blank takes one, and is none.
/// `Stray` exactly where neither stands there.
pub(crate) fn cut_one(
    alloc: Global,
    symbols: &Symbols,
    chars: &[char],
    found: &mut Vec<Token>,
) -> Result<usize, NoTokens>
    requires { 0 < length chars.now }
    ensures some { IfOk result (λ n. 0 < n) }
    ensures within { IfOk result (λ n. n ≤ length chars.now) }
    ensures pushed { IfOk result (λ n. Pushed symbols.now chars.now (drop n chars.now) found.old.items found.new.items) }
    ensures stray { IfErr result (λ e. e ≡ NoTokens.Stray → (ts : List Token) → IsCut symbols.now chars.now ts → ⊥) }
{
    if is_blank(chars[0]) {
        return Ok(1);
    }
    match first_token(symbols, chars) {
        Front::Sign(count, sign) => {
            push(found, Token::Sign(sign))?;
            Ok(count)
        }
        Front::Word(count) => {
            push_word(alloc, found, first_items(chars, count))?;
            Ok(count)
        }
        Front::Nothing => Err(NoTokens::Stray),
    }
}

/// The tokens of a text, in order: each is the longest that stands at its place, and of a word and a symbol that are equally
/// long it is the symbol. Blanks separate tokens. `Stray` exactly where at some place no token begins; `Memory` where memory
/// runs out.
pub fn inner_tokens(alloc: Global, symbols: &Symbols, text: &[char]) -> Result<Vec<Token>, NoTokens>
    ensures cut { IfOk result (λ v. IsCut symbols.now text.now v.items) }
    ensures only { IfOk result (λ v. (ts : List Token) → IsCut symbols.now text.now ts → ts ≡ v.items) }
    ensures stray { IfErr result (λ e. e ≡ NoTokens.Stray → (ts : List Token) → IsCut symbols.now text.now ts → ⊥) }
{
    let mut found = Vec::new(alloc);
    let mut at = 0;
    while at < text.len() {
        let count = cut_one(alloc, symbols, rest_from(text, at), &mut found)?;
        at += count;
    }
    Ok(found)
}
