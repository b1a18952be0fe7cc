//! Symbols of notations, and the delimiters of the inner syntax.
ghost use Rattle.std.specs.Prelude.{◌≡◌};
ghost use Rattle.std.specs.List.{list_any};
ghost use Rattle.std.specs.Str.{bytes_eq};
ghost use Rattle.iv_sig.specs.Fixity.{is_symbol, is_barred, is_delimiter};

use iv_text::Text;

/// Whether a character is a blank or `_`.
fn is_barred(c: char) -> bool
    ensures { result ≡ is_barred c }
{
    c == ' ' || c == '\t' || c == '\n' || c == '\r' || c == '_'
}

/// Whether a text has a blank or `_`.
fn has_barred(chars: &[char]) -> bool
    ensures { result ≡ list_any is_barred chars.now }
{
    for c in chars {
        if is_barred(*c) {
            return true;
        }
    }
    false
}

/// Whether a text is one that a notation may have as its symbol: it has a character, and neither a blank nor `_`.
pub(crate) fn is_symbol(symbol: &Text) -> bool
    ensures { result ≡ is_symbol symbol.now }
{
    let chars = symbol.as_slice();
    chars.len() > 0 && !has_barred(chars)
}

const DELIMITERS: &[&[char]] = &[
    &['('],
    &[')'],
    &[':', ':'],
    &['%'],
    &['.'],
    &['=', '='],
    &['=', '=', '>'],
    &['[', '|'],
    &['|', ']'],
    &[';'],
    &['!', '!'],
    &['=', '>'],
    &['['],
    &[']'],
    &[','],
    &['P', 'R', 'O', 'P'],
    &['_'],
    &['.', '.', '.'],
];

/// Whether a text is among others.
fn is_among(text: &[char], others: &[&[char]]) -> bool
    ensures { result ≡ list_any (λ other. bytes_eq text.now other.now) others.now }
{
    for other in others {
        if text == *other {
            return true;
        }
    }
    false
}

/// Whether a text is a delimiter of the inner syntax.
pub(crate) fn is_delimiter(text: &Text) -> bool
    ensures { result ≡ is_delimiter text.now }
{
    is_among(text.as_slice(), DELIMITERS)
}
