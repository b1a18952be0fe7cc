ghost use Rattle.std.specs.Prelude.{◌≡◌};
ghost use Rattle.iv_lex.specs.Letter.{is_alpha, is_blank, is_char, is_continue, is_digit, is_sign, is_single, is_start, is_symbolic};

use crate::letters::Letter;
use iv_text::spelling;
use unicode_ident::{is_xid_continue, is_xid_start};

impl Letter {
    /// Whether it is this character.
    pub(crate) fn is(self, c: char) -> bool
        ensures { result ≡ is_char c self }
    {
        self.value.is_some_and(|d| d == c)
    }

    /// Whether it is a space, tab, line feed or carriage return.
    pub(crate) fn is_blank(self) -> bool
        ensures { result ≡ is_blank self }
    {
        self.value
            .is_some_and(|c| c == ' ' || c == '\t' || c == '\n' || c == '\r')
    }

    /// Whether it may begin an identifier: a character of XID_Start but U+03BB.
    pub(crate) fn is_start(self) -> bool
        ensures { result ≡ is_start self }
    {
        self.value
            .is_some_and(|c| is_xid_start(c) && c != '\u{03BB}')
    }

    /// Whether it may go on with an identifier: a character of XID_Continue or `'`, but U+03BB.
    pub(crate) fn is_continue(self) -> bool
        ensures { result ≡ is_continue self }
    {
        self.value
            .is_some_and(|c| (is_xid_continue(c) || c == '\'') && c != '\u{03BB}')
    }

    /// Whether it is a digit, 0 to 9.
    pub(crate) fn is_digit(self) -> bool
        ensures { result ≡ is_digit self }
    {
        self.value.is_some_and(|c| c.is_ascii_digit())
    }

    /// Whether it is an ASCII letter.
    pub(crate) fn is_alpha(self) -> bool
        ensures { result ≡ is_alpha self }
    {
        self.value.is_some_and(|c| c.is_ascii_alphabetic())
    }

    /// Whether it may stand in a run of symbols: one of `! # $ % & * + - / < = > ? @ ^ _ | ~`.
    pub(crate) fn is_symbolic(self) -> bool
        ensures { result ≡ is_symbolic self }
    {
        self.value.is_some_and(|c| {
            matches!(
                c,
                '!' | '#'
                    | '$'
                    | '%'
                    | '&'
                    | '*'
                    | '+'
                    | '-'
                    | '/'
                    | '<'
                    | '='
                    | '>'
                    | '?'
                    | '@'
                    | '^'
                    | '_'
                    | '|'
                    | '~'
            )
        })
    }

    /// Whether it is a character of the table of symbols.
    pub(crate) fn is_sign(self) -> bool
        ensures { result ≡ is_sign self }
    {
        self.value.is_some_and(|c| spelling(c).is_some())
    }

    /// Whether it is a delimiter: one of `( ) [ ] { } , ; : .`.
    pub(crate) fn is_single(self) -> bool
        ensures { result ≡ is_single self }
    {
        self.value.is_some_and(|c| {
            matches!(c, '(' | ')' | '[' | ']' | '{' | '}' | ',' | ';' | ':' | '.')
        })
    }
}
