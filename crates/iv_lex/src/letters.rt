ghost use Rattle.std.specs.Prelude.{◌≡◌, ◌≤◌, ◌<◌, ◌+◌, ◌^◌, length, drop, take, IfOk, IfErr};
ghost use Rattle.iv_text.specs.declared.want.Want.TheVariants.{Memory};
ghost use Rattle.iv_lex.specs.Letter.{letter_at, letter_more, letter_value, letters_of};

use iv_text::{Mem, Pos};
use std::alloc::Global;

/// A letter of a document: a character of UTF-8, or a byte that is part of none.
#[derive(Clone, Copy, Debug, PartialEq, Eq)]
pub struct Letter {
    /// The character; `None` where the letter is a byte that isn't UTF-8.
    pub value: Option<char>,
    /// The offset of its first byte.
    pub at: Pos,
    /// The offset behind its last byte.
    pub end: Pos,
}

/// The character that begins these bytes, if one does, and how many more bytes belong to it.
pub fn first_letter(bytes: &[u8]) -> (Option<char>, usize)
    requires { 0 < length bytes.now }
    ensures value { result.0 ≡ letter_value bytes.now }
    ensures more { result.1 ≡ letter_more bytes.now }
    ensures within { 1 + result.1 ≤ length bytes.now }
{
    let (value, size) = bstr::decode_utf8(bytes);
    let more = match value {
        Some(_) => size - 1,
        None => 0,
    };
    (value, more)
}

/// The items from this place on.
pub fn rest_from<T>(items: &[T], from: usize) -> &[T]
    requires { from ≤ length items.now }
    ensures { result.now ≡ drop from items.now }
{
    &items[from..]
}

/// The items up to this place.
pub fn first_items<T>(items: &[T], count: usize) -> &[T]
    requires { count ≤ length items.now }
    ensures { result.now ≡ take count items.now }
{
    &items[..count]
}

/// The letters of a document, in order. Fails where memory runs out.
pub fn letters(alloc: Global, bytes: &[u8]) -> Mem<Vec<Letter>>
    requires { length bytes.now < 2 ^ 32 }
    ensures ok { IfOk result (λ v. v.items ≡ letters_of bytes.now) }
    ensures memory { IfErr result (λ w. w ≡ Memory) }
{
    let mut found = Vec::new(alloc);
    let mut at = 0;
    while at < bytes.len() {
        let (value, more) = first_letter(rest_from(bytes, at));
        let end = at + 1 + more;
        found.push(Letter {
            value,
            at: Pos(at as u32),
            end: Pos(end as u32),
        })?;
        at = end;
    }
    Ok(found)
}
