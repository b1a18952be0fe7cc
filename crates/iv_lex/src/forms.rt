ghost use Rattle.std.specs.Prelude.{◌≡◌, ◌≤◌, ◌+◌, ◌&&◌, length, drop, false, not, IfSome, IsTrue};
ghost use Rattle.iv_lex.specs.Letter.{is_alpha, is_char};
ghost use Rattle.iv_lex.specs.Form.{alphas, digits_more, first_is, goes_on, ident_more, is_named, name_more, number_more, spells, string_from, symbols_more, var_more};

use crate::letters::{Letter, rest_from};

/// Whether these ASCII characters stand first.
pub(crate) fn spells(word: &[u8], letters: &[Letter]) -> bool
    ensures same { result ≡ spells word.now letters.now }
    ensures fits { IsTrue result → length word.now ≤ length letters.now }
{
    match word {
        [] => true,
        [byte, word @ ..] => match letters {
            [] => false,
            [letter, letters @ ..] => letter.is(*byte as char) && spells(word, letters),
        },
    }
}

/// Whether a symbol `\\<name>` stands first.
pub(crate) fn is_named(letters: &[Letter]) -> bool
    ensures same { result ≡ is_named letters.now }
    ensures fits { IsTrue result → 3 + alphas (drop 2 letters.now) ≤ length letters.now }
{
    match letters {
        [_, _, rest @ ..] => spells(b"\\<".as_slice(), letters) && is_bracketed(rest),
        _ => false,
    }
}

/// Whether a name of ASCII letters and then a `>` stand first.
pub(crate) fn is_bracketed(letters: &[Letter]) -> bool
    ensures same { result ≡ (first_is is_alpha letters.now && first_is (is_char 62) (drop (alphas letters.now) letters.now)) }
    ensures fits { IsTrue result → 1 + alphas letters.now ≤ length letters.now }
{
    let count = alphas(letters);
    first_alpha(letters) && starts_with(rest_from(letters, count), '>')
}

/// Whether the first letter is an ASCII letter.
pub(crate) fn first_alpha(letters: &[Letter]) -> bool
    ensures { result ≡ first_is is_alpha letters.now }
{
    match letters {
        [] => false,
        [letter, ..] => letter.is_alpha(),
    }
}

/// Whether the first letter is this character.
pub(crate) fn starts_with(letters: &[Letter], c: char) -> bool
    ensures same { result ≡ first_is (is_char c) letters.now }
    ensures fits { IsTrue result → 1 ≤ length letters.now }
{
    match letters {
        [] => false,
        [letter, ..] => letter.is(c),
    }
}

/// How many of the letters go on with an identifier.
pub(crate) fn ident_more(letters: &[Letter]) -> usize
    ensures more { result ≡ ident_more letters.now }
    ensures within { result ≤ length letters.now }
{
    letters
        .iter()
        .take_while(|letter| letter.is_continue())
        .count()
}

/// How many of the letters are digits.
pub(crate) fn digits_more(letters: &[Letter]) -> usize
    ensures more { result ≡ digits_more letters.now }
    ensures within { result ≤ length letters.now }
{
    letters
        .iter()
        .take_while(|letter| letter.is_digit())
        .count()
}

/// How many of the letters go on with a run of symbols.
pub(crate) fn symbols_more(letters: &[Letter]) -> usize
    ensures more { result ≡ symbols_more letters.now }
    ensures within { result ≤ length letters.now }
{
    letters
        .iter()
        .take_while(|letter| letter.is_symbolic())
        .count()
}

/// How many of the letters are ASCII letters, as in a symbol's name.
pub(crate) fn alphas(letters: &[Letter]) -> usize
    ensures more { result ≡ alphas letters.now }
    ensures within { result ≤ length letters.now }
{
    letters
        .iter()
        .take_while(|letter| letter.is_alpha())
        .count()
}

/// Whether a name goes on with the first letter.
pub(crate) fn goes_on(letters: &[Letter]) -> bool
    ensures { result ≡ goes_on letters.now }
{
    match letters {
        [] => false,
        [letter] => letter.is_continue(),
        [letter, next, ..] => letter.is_continue() || (letter.is('.') && next.is_start()),
    }
}

/// How many of the letters go on with a name: letters of identifiers, and dots between two of them.
pub(crate) fn name_more(letters: &[Letter]) -> usize
    ensures more { result ≡ name_more letters.now }
    ensures within { result ≤ length letters.now }
{
    let mut count = 0;
    while count < letters.len() {
        if !goes_on(rest_from(letters, count)) {
            return count;
        }
        count += 1;
    }
    count
}

/// How many of the letters are a dot and a number behind it: none where no digit follows the dot.
pub(crate) fn number_more(letters: &[Letter]) -> usize
    ensures more { result ≡ number_more letters.now }
    ensures within { result ≤ length letters.now }
{
    match letters {
        [dot, digit, ..] if dot.is('.') && digit.is_digit() => 1
            + digits_more(rest_from(letters, 1)),
        _ => 0,
    }
}

/// How many of the letters behind a `?` go on with a variable: an identifier, and a dot and a number where they follow.
pub(crate) fn var_more(letters: &[Letter]) -> usize
    ensures more { result ≡ var_more letters.now }
    ensures within { result ≤ length letters.now }
{
    let ident = ident_more(letters);
    ident + number_more(rest_from(letters, ident))
}

/// Whether a letter of a string ends it, where a backslash escapes it or not.
pub(crate) fn closes(escaped: bool, letter: Letter) -> bool
    ensures { result ≡ (not escaped && is_char 34 letter) }
{
    !escaped && letter.is('"')
}

/// Whether a letter of a string escapes the next, where a backslash escapes it itself or not.
pub(crate) fn escapes(escaped: bool, letter: Letter) -> bool
    ensures { result ≡ (not escaped && is_char 92 letter) }
{
    !escaped && letter.is('\\')
}

/// How many of the letters behind a `"` belong to the string, its last `"` among them. `None` where it isn't closed.
pub(crate) fn string_more(letters: &[Letter]) -> Option<usize>
    ensures more { result ≡ string_from false letters.now }
    ensures within { IfSome result (λ n. n ≤ length letters.now) }
{
    let mut escaped = false;
    let mut at = 0;
    while at < letters.len() {
        let letter = letters[at];
        if closes(escaped, letter) {
            return Some(at + 1);
        }
        escaped = escapes(escaped, letter);
        at += 1;
    }
    None
}
