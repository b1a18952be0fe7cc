ghost use Rattle.std.specs.Prelude.{◌≡◌, ◌≤◌, ◌<◌, ◌+◌, ◌&&◌, ◌∷◌, length, drop, position, codes, IfOk, IfErr, IfSome};
ghost use Rattle.std.specs.List.{position_or_len, prefix_len, list_all};
ghost use Rattle.std.specs.Option.{option_copied};
ghost use Rattle.std.specs.Str.{bytes_eq};
ghost use Rattle.iv_text.specs.declared.want.Want.TheVariants.{Memory};
ghost use Rattle.iv_statement.specs.Letter.{is_blank, is_word_letter};
ghost use Rattle.iv_statement.specs.Reading.{words_of, word_before, parts_of, parts_after, is_word, is_name, name_in, reading_of};

use crate::letters::{is_blank, is_letter, is_word_letter};
use crate::parts::Parts;
use iv_lex::letters::rest_from;
use iv_text::{Mem, Text};
use std::alloc::Global;

/// The word before each name of a proposition.
const PROP: [char; 4] = ['P', 'R', 'O', 'P'];

/// What joins the parts of a proposition.
const ARROW: [char; 3] = ['=', '=', '>'];

/// How many blanks stand before anything else.
pub fn leading_blanks(text: &[char]) -> usize
    ensures count { result ≡ prefix_len is_blank text.now }
    ensures within { result ≤ length text.now }
{
    text.iter().take_while(|c| is_blank(**c)).count()
}

/// How many characters come before the first blank.
pub fn before_blank(text: &[char]) -> usize
    ensures count { result ≡ position_or_len is_blank text.now }
    ensures within { result ≤ length text.now }
{
    text.iter().take_while(|c| !is_blank(**c)).count()
}

/// The first word of a text, empty where it has none, and what stands behind it.
pub fn next_word(text: &[char]) -> (&[char], &[char])
    ensures { words_of text.now ≡ word_before result.0.now (words_of result.1.now) }
{
    let text = rest_from(text, leading_blanks(text));
    let len = before_blank(text);
    text.split_at(len)
}

/// Whether all are letters of words.
pub fn are_word_letters(text: &[char]) -> bool
    ensures { result ≡ list_all is_word_letter text.now }
{
    text.iter().all(|c| is_word_letter(*c))
}

/// Whether a text may name a proposition: a word other than `PROP`.
pub fn is_name(text: &[char]) -> bool
    ensures { result ≡ is_name text.now }
{
    match text.first() {
        None => false,
        Some(first) => {
            is_letter(*first) && are_word_letters(rest_from(text, 1)) && text != PROP.as_slice()
        }
    }
}

/// The name in the part `PROP NAME`, or nothing where it is no such part.
pub fn name_in(part: &[char]) -> Option<&[char]>
    ensures { option_copied result ≡ name_in part.now }
{
    let (prop, rest) = next_word(part);
    let (name, rest) = next_word(rest);
    let (more, _) = next_word(rest);
    if prop == PROP.as_slice() && is_name(name) && more.is_empty() {
        Some(name)
    } else {
        None
    }
}

/// The text before the first `==>`, and what stands behind that, if there is one.
pub fn next_part(text: &[char]) -> (&[char], Option<&[char]>)
    ensures parts { parts_of text.now ≡ result.0.now ∷ parts_after (option_copied result.1) }
    ensures shorter { IfSome result.1 (λ rest. length rest.now < length text.now) }
{
    for at in 0..text.len() {
        let rest = rest_from(text, at);
        if rest.starts_with(ARROW.as_slice()) {
            return (&text[..at], Some(rest_from(rest, 3)));
        }
    }
    (text, None)
}

/// How a text reads: the names of its parts, in order, or nothing where it is no proposition.
/// Fails where memory runs out.
pub fn reading_of(alloc: Global, text: &[char]) -> Mem<Option<Parts>>
    ensures ok { IfOk result (λ parts. parts ≡ reading_of text.now) }
    ensures memory { IfErr result (λ w. w ≡ Memory) }
{
    let mut names = Vec::new(alloc);
    let mut left = Some(text);
    while let Some(rest) = left {
        let (part, after) = next_part(rest);
        let Some(name) = name_in(part) else {
            return Ok(None);
        };
        names.push(Text::from_slice(alloc, name)?)?;
        left = after;
    }
    Ok(Some(Parts::from_vec(alloc, names)?))
}
