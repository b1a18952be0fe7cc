ghost use Rattle.std.specs.Prelude.{◌≡◌, ◌≤◌, ◌<◌, ◌+◌, ◌*◌, false, chars, length, drop, IsUtf8};
ghost use Rattle.unicode_width.specs.Width.{str_width};
ghost use Rattle.iv_report.specs.Width.{width_of};

use std::str::from_utf8;
use unicode_width::UnicodeWidthStr;

/// The columns of bytes that are UTF-8.
fn text_width(text: &[u8]) -> usize
    ensures value { IsUtf8 text.now → result ≡ str_width false (chars text.now) }
    ensures bound { result ≤ 2 * length text.now }
{
    match from_utf8(text) {
        Ok(text) => text.width(),
        Err(_error) => 0,
    }
}

/// The columns of the longest front that is UTF-8 together with the byte behind it, and how many bytes these are.
fn front_width(bytes: &[u8]) -> (usize, usize)
    requires { 0 < length bytes.now }
    ensures width { width_of bytes.now ≡ result.0 + width_of (drop result.1 bytes.now) }
    ensures bound { result.0 ≤ 2 * result.1 }
    ensures within { result.1 ≤ length bytes.now }
    ensures some { 0 < result.1 }
{
    match from_utf8(bytes) {
        Ok(text) => (text.width(), bytes.len()),
        Err(error) => {
            let valid = error.valid_up_to();
            (text_width(&bytes[..valid]) + 1, valid + 1)
        }
    }
}

/// The columns that some bytes take in a terminal: those of the text that they are, and one for each byte that isn't
/// UTF-8. Control characters take one column.
pub fn width_of(bytes: &[u8]) -> usize
    ensures value { result ≡ width_of bytes.now }
    ensures bound { result ≤ 2 * length bytes.now }
{
    let mut rest = bytes;
    let mut columns = 0;
    while !rest.is_empty() {
        let (width, count) = front_width(rest);
        columns += width;
        rest = &rest[count..];
    }
    columns
}
