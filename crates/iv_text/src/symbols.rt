ghost use Rattle.std.specs.Prelude.{◌≡◌, MatchOption};
ghost use Rattle.iv_text.specs.Symbol.{character_named, printed_for};

/// The character of the symbol `\<name>`, where `name` is what stands between `\<` and `>`. `None` exactly where
/// no symbol with a character has this name.
pub fn symbol(name: &[u8]) -> Option<char>
    ensures { result ≡ character_named name.now }
{
    if name == b"And".as_slice() {
        Some('\u{22C0}')
    } else if name == b"Longrightarrow".as_slice() {
        Some('\u{27F9}')
    } else if name == b"equiv".as_slice() {
        Some('\u{2261}')
    } else if name == b"lambda".as_slice() {
        Some('\u{03BB}')
    } else if name == b"Rightarrow".as_slice() {
        Some('\u{21D2}')
    } else if name == b"lbrakk".as_slice() {
        Some('\u{27E6}')
    } else if name == b"rbrakk".as_slice() {
        Some('\u{27E7}')
    } else if name == b"open".as_slice() {
        Some('\u{2039}')
    } else if name == b"close".as_slice() {
        Some('\u{203A}')
    } else if name == b"bar".as_slice() {
        Some('\u{00A6}')
    } else {
        None
    }
}

/// The spelling that is printed for a symbol's character. `None` exactly where it is no symbol's character.
pub fn spelling(c: char) -> Option<&'static str>
    ensures { MatchOption result (printed_for c ≡ None) (λ s. printed_for c ≡ Some s.now) }
{
    match c {
        '\u{22C0}' => Some("!!"),
        '\u{27F9}' => Some("==>"),
        '\u{2261}' => Some("=="),
        '\u{03BB}' => Some("%"),
        '\u{21D2}' => Some("=>"),
        '\u{27E6}' => Some("[|"),
        '\u{27E7}' => Some("|]"),
        '\u{2039}' => Some("\\<open>"),
        '\u{203A}' => Some("\\<close>"),
        '\u{00A6}' => Some("\\<bar>"),
        _ => None,
    }
}
