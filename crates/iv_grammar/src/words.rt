//! The words of inner texts, and how many characters the longest one at the front takes.
ghost use Rattle.std.specs.Prelude.{◌≡◌, ◌≤◌, ◌==◌, length, drop, take};
ghost use Rattle.std.specs.List.{list_any};
ghost use Rattle.iv_grammar.specs.Word.{is_blank, is_start, is_continue};
ghost use Rattle.iv_grammar.specs.Measure.{first_is, ident_more, goes_on, name_more, digits_more, number_more, var_more, word_count, word_of};

use unicode_ident::{is_xid_continue, is_xid_start};

/// What a word is.
#[derive(Clone, Copy, Debug, PartialEq, Eq)]
pub enum Word {
    /// A character that begins identifiers, and then such as go on with them.
    Ident,
    /// Identifiers with dots between them.
    Long,
    /// A `?` and an identifier, and maybe a dot and a number.
    Var,
    /// A `'` and an identifier.
    Tvar,
}

/// The items from this place on.
pub(crate) fn rest_from<T>(items: &[T], from: usize) -> &[T]
    requires { from ≤ length items.now }
    ensures { result.now ≡ drop from items.now }
{
    &items[from..]
}

/// The items up to this place.
pub(crate) fn first_items<T>(items: &[T], count: usize) -> &[T]
    requires { count ≤ length items.now }
    ensures { result.now ≡ take count items.now }
{
    &items[..count]
}

/// Whether a character is a space, tab, line feed or carriage return.
pub(crate) fn is_blank(c: char) -> bool
    ensures { result ≡ is_blank c }
{
    c == ' ' || c == '\t' || c == '\n' || c == '\r'
}

/// Whether a character may begin an identifier: one of XID_Start but U+03BB.
pub(crate) fn is_start(c: char) -> bool
    ensures { result ≡ is_start c }
{
    is_xid_start(c) && c != '\u{03BB}'
}

/// Whether a character may go on with an identifier: one of XID_Continue or `'`, but U+03BB.
pub(crate) fn is_continue(c: char) -> bool
    ensures { result ≡ is_continue c }
{
    (is_xid_continue(c) || c == '\'') && c != '\u{03BB}'
}

/// Whether an identifier begins here.
pub(crate) fn begins(chars: &[char]) -> bool
    ensures { result ≡ first_is is_start chars.now }
{
    match chars {
        [] => false,
        [c, ..] => is_start(*c),
    }
}

/// How many of the characters go on with an identifier.
pub(crate) fn ident_more(chars: &[char]) -> usize
    ensures more { result ≡ ident_more chars.now }
    ensures within { result ≤ length chars.now }
{
    chars.iter().take_while(|c| is_continue(**c)).count()
}

/// How many of the characters are digits.
pub(crate) fn digits_more(chars: &[char]) -> usize
    ensures more { result ≡ digits_more chars.now }
    ensures within { result ≤ length chars.now }
{
    chars.iter().take_while(|c| c.is_ascii_digit()).count()
}

/// Whether a name goes on with the first character.
pub(crate) fn goes_on(chars: &[char]) -> bool
    ensures { result ≡ goes_on chars.now }
{
    match chars {
        [] => false,
        [c] => is_continue(*c),
        [c, next, ..] => is_continue(*c) || (*c == '.' && is_start(*next)),
    }
}

/// How many of the characters go on with a name: those of identifiers, and dots between two of them.
pub(crate) fn name_more(chars: &[char]) -> usize
    ensures more { result ≡ name_more chars.now }
    ensures within { result ≤ length chars.now }
{
    let mut count = 0;
    while count < chars.len() {
        if !goes_on(rest_from(chars, count)) {
            return count;
        }
        count += 1;
    }
    count
}

/// How many of the characters are a dot and a number behind it: none where no digit follows the dot.
pub(crate) fn number_more(chars: &[char]) -> usize
    ensures more { result ≡ number_more chars.now }
    ensures within { result ≤ length chars.now }
{
    match chars {
        [dot, digit, ..] if *dot == '.' && digit.is_ascii_digit() => 1
            + digits_more(rest_from(chars, 1)),
        _ => 0,
    }
}

/// How many of the characters behind a `?` go on with a variable: an identifier, and a dot and a number where they follow.
pub(crate) fn var_more(chars: &[char]) -> usize
    ensures more { result ≡ var_more chars.now }
    ensures within { result ≤ length chars.now }
{
    let ident = ident_more(chars);
    ident + number_more(rest_from(chars, ident))
}

/// How many characters the longest word at the front takes: none where no word begins.
#[tactic(auto, unfolding(crate::specs::Measure::word_count))]
pub(crate) fn word_count(chars: &[char]) -> usize
    ensures count { result ≡ word_count chars.now }
    ensures within { result ≤ length chars.now }
{
    match chars {
        [] => 0,
        [c, rest @ ..] => {
            if is_start(*c) {
                1 + name_more(rest)
            } else if *c == '?' && begins(rest) {
                1 + var_more(rest)
            } else if *c == '\'' && begins(rest) {
                1 + ident_more(rest)
            } else {
                0
            }
        }
    }
}

/// Whether a dot is among the characters.
pub(crate) fn has_dot(chars: &[char]) -> bool
    ensures { result ≡ list_any (λ c. c == 46) chars.now }
{
    chars.iter().any(|c| *c == '.')
}

/// Which word some characters are, where they are one.
#[tactic(auto, unfolding(crate::specs::Measure::word_of))]
pub(crate) fn word_of(chars: &[char]) -> Word
    ensures { result ≡ word_of chars.now }
{
    match chars {
        ['?', ..] => Word::Var,
        ['\'', ..] => Word::Tvar,
        _ if has_dot(chars) => Word::Long,
        _ => Word::Ident,
    }
}
