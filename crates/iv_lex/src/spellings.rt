ghost use Rattle.std.specs.Prelude.{◌≡◌, ◌||◌, ◌++◌, ◌∷◌, [], if◌then◌else◌, IfOk, OnOk, IfErr, MatchOption, false, unwrap_or};
ghost use Rattle.iv_text.specs.declared.want.Want.TheVariants.{Memory};
ghost use Rattle.iv_lex.specs.Form.{first_is, spells};
ghost use Rattle.iv_lex.specs.Letter.{chars_of, is_char};
ghost use Rattle.iv_lex.specs.Spelling.{ending, inner, is_escapable, is_escape, printed_symbol, text_of, unescaped};

use crate::cutting::Kind;
use crate::forms::{spells, starts_with};
use crate::letters::{Letter, first_items, rest_from};
use crate::nests::Nest;
use iv_text::Mem;
use std::alloc::Global;

/// The characters of some letters. Fails where memory runs out.
pub(crate) fn chars_of(alloc: Global, letters: &[Letter]) -> Mem<Vec<char>>
    ensures ok { IfOk result (λ v. v.items ≡ chars_of letters.now) }
    ensures memory { IfErr result (λ w. w ≡ Memory) }
{
    let chars: Vec<char> = letters
        .iter()
        .filter_map(|letter| letter.value)
        .collect(alloc)?;
    Ok(chars)
}

/// The characters of an ASCII text. Fails where memory runs out.
pub(crate) fn ascii_chars(alloc: Global, text: &str) -> Mem<Vec<char>>
    ensures ok { IfOk result (λ v. v.items ≡ text.now) }
    ensures memory { IfErr result (λ w. w ≡ Memory) }
{
    let mut chars = Vec::new(alloc);
    for byte in text.as_bytes() {
        chars.push(*byte as char)?;
    }
    Ok(chars)
}

/// Whether a quote or a backslash stands first.
pub(crate) fn is_escapable(chars: &[char]) -> bool
    ensures { result ≡ is_escapable chars.now }
{
    match chars {
        [] => false,
        [c, ..] => *c == '"' || *c == '\\',
    }
}

/// Whether the first character is a backslash that escapes the next, where it is escaped itself or not.
pub(crate) fn is_escape(escaped: bool, chars: &[char]) -> bool
    ensures { result ≡ is_escape escaped chars.now }
{
    match chars {
        [] => false,
        [c, rest @ ..] => !escaped && *c == '\\' && is_escapable(rest),
    }
}

/// Puts the character behind the text, unless it is to fall away. Fails where memory runs out.
pub(crate) fn push_unless(text: &mut Vec<char>, c: char, falls: bool) -> Mem<()>
    ensures ok { OnOk result (text.new.items ≡ (if falls then text.old.items else text.old.items ++ c ∷ [])) }
    ensures memory { IfErr result (λ w. w ≡ Memory) }
{
    if !falls {
        text.push(c)?;
    }
    Ok(())
}

/// A string's text: a backslash directly before a quote or a backslash falls away. Fails where memory runs out.
pub(crate) fn unescaped(alloc: Global, chars: &[char]) -> Mem<Vec<char>>
    ensures ok { IfOk result (λ v. v.items ≡ unescaped false chars.now) }
    ensures memory { IfErr result (λ w. w ≡ Memory) }
{
    let mut text = Vec::new(alloc);
    let mut escaped = false;
    let mut at = 0;
    while at < chars.len() {
        escaped = is_escape(escaped, rest_from(chars, at));
        push_unless(&mut text, chars[at], escaped)?;
        at += 1;
    }
    Ok(text)
}

/// Whether these letters are a symbol, by its spelling in ASCII or by its character.
pub(crate) fn is_symbol(letters: &[Letter], ascii: &[u8], character: char) -> bool
    ensures { result ≡ (spells ascii.now letters.now || first_is (is_char character) letters.now) }
{
    spells(ascii, letters) || starts_with(letters, character)
}

/// The printed spelling of the symbol that these letters are. `None` where the table of symbols has no row for them.
#[tactic(auto, unfolding(crate::specs::Spelling::printed_symbol))]
pub(crate) fn printed_symbol(letters: &[Letter]) -> Option<&'static str>
    ensures { MatchOption result (printed_symbol letters.now ≡ None) (λ s. printed_symbol letters.now ≡ Some s.now) }
{
    if is_symbol(letters, b"\\<And>".as_slice(), '\u{22C0}') {
        Some("!!")
    } else if is_symbol(letters, b"\\<Longrightarrow>".as_slice(), '\u{27F9}') {
        Some("==>")
    } else if is_symbol(letters, b"\\<equiv>".as_slice(), '\u{2261}') {
        Some("==")
    } else if is_symbol(letters, b"\\<lambda>".as_slice(), '\u{03BB}') {
        Some("%")
    } else if is_symbol(letters, b"\\<Rightarrow>".as_slice(), '\u{21D2}') {
        Some("=>")
    } else if is_symbol(letters, b"\\<lbrakk>".as_slice(), '\u{27E6}') {
        Some("[|")
    } else if is_symbol(letters, b"\\<rbrakk>".as_slice(), '\u{27E7}') {
        Some("|]")
    } else if is_symbol(letters, b"\\<open>".as_slice(), '\u{2039}') {
        Some("\\<open>")
    } else if is_symbol(letters, b"\\<close>".as_slice(), '\u{203A}') {
        Some("\\<close>")
    } else if is_symbol(letters, b"\\<bar>".as_slice(), '\u{00A6}') {
        Some("\\<bar>")
    } else {
        None
    }
}

/// How many letters the closing takes at the end of a cartouche.
pub(crate) fn ending(letters: &[Letter]) -> usize
    ensures { result ≡ ending letters.now }
{
    let last = letters.len().saturating_sub(1);
    if starts_with(rest_from(letters, last), '\u{203A}') {
        1
    } else {
        8
    }
}

/// Some letters without so many in front and so many at the end.
pub(crate) fn inner(letters: &[Letter], front: usize, back: usize) -> &[Letter]
    ensures { result.now ≡ inner front back letters.now }
{
    let kept = first_items(letters, letters.len().saturating_sub(back));
    if front < kept.len() {
        rest_from(kept, front)
    } else {
        rest_from(kept, kept.len())
    }
}

/// The text of a token of this kind and these letters. Fails where memory runs out.
pub(crate) fn text_of(alloc: Global, kind: Kind, letters: &[Letter]) -> Mem<Vec<char>>
    ensures ok { IfOk result (λ v. v.items ≡ text_of kind letters.now) }
    ensures memory { IfErr result (λ w. w ≡ Memory) }
{
    match kind {
        Kind::Bad => Ok(Vec::new(alloc)),
        Kind::Str => string_text(alloc, letters),
        Kind::Cart => {
            let front = Nest::Cartouche.opening(letters);
            chars_of(alloc, inner(letters, front, ending(letters)))
        }
        Kind::Sym => symbol_text(alloc, letters),
        _ => chars_of(alloc, letters),
    }
}

/// The text of a string with these letters. Fails where memory runs out.
pub(crate) fn string_text(alloc: Global, letters: &[Letter]) -> Mem<Vec<char>>
    ensures ok { IfOk result (λ v. v.items ≡ unescaped false (chars_of (inner 1 1 letters.now))) }
    ensures memory { IfErr result (λ w. w ≡ Memory) }
{
    let chars = chars_of(alloc, inner(letters, 1, 1))?;
    unescaped(alloc, &chars)
}

/// The text of a symbol with these letters: its printed spelling. Fails where memory runs out.
pub(crate) fn symbol_text(alloc: Global, letters: &[Letter]) -> Mem<Vec<char>>
    ensures ok { IfOk result (λ v. v.items ≡ unwrap_or (printed_symbol letters.now) (chars_of letters.now)) }
    ensures memory { IfErr result (λ w. w ≡ Memory) }
{
    match printed_symbol(letters) {
        Some(text) => ascii_chars(alloc, text),
        None => chars_of(alloc, letters),
    }
}
