ghost use Rattle.std.specs.Prelude.{◌≡◌};
ghost use Rattle.iv_statement.specs.Letter.{is_blank, is_letter, is_word_letter};

/// Whether the character separates words: a space, tab, line feed or carriage return.
pub fn is_blank(c: char) -> bool
    ensures { result ≡ is_blank c }
{
    c == ' ' || c == '\t' || c == '\n' || c == '\r'
}

/// Whether the character is an ASCII letter.
pub fn is_letter(c: char) -> bool
    ensures { result ≡ is_letter c }
{
    c.is_ascii_alphabetic()
}

/// Whether the character may stand in a word: an ASCII letter, a digit or `_`.
pub fn is_word_letter(c: char) -> bool
    ensures { result ≡ is_word_letter c }
{
    c.is_ascii_alphanumeric() || c == '_'
}
