//! Writers of the parts of a line: each appends to the characters so far.
ghost use Rattle.std.specs.Prelude.{◌≡◌, ◌<◌, ◌+◌, ◌++◌, ◌∷◌, [], OnOk, IfErr};
ghost use Rattle.std.specs.Fmt.{decimal};
ghost use Rattle.iv_text.specs.declared.want.Want.TheVariants.{Memory};
ghost use Rattle.iv_report.specs.Text.{only_if, number_text, name_text, place_text};

use iv_text::{Mem, Name, Text};

/// Writes one character. Fails where memory runs out.
pub fn push_char(line: &mut Vec<char>, c: char) -> Mem<()>
    ensures ok { OnOk result (line.new.items ≡ line.old.items ++ c ∷ []) }
    ensures memory { IfErr result (λ w. w ≡ Memory) }
{
    line.push(c)?;
    Ok(())
}

/// Writes one character where a condition holds. Fails where memory runs out.
pub fn push_char_if(line: &mut Vec<char>, holds: bool, c: char) -> Mem<()>
    ensures ok { OnOk result (line.new.items ≡ line.old.items ++ only_if holds (c ∷ [])) }
    ensures memory { IfErr result (λ w. w ≡ Memory) }
{
    if holds {
        return push_char(line, c);
    }
    Ok(())
}

/// Writes an ASCII text. Fails where memory runs out.
pub fn push_ascii(line: &mut Vec<char>, bytes: &[u8]) -> Mem<()>
    ensures ok { OnOk result (line.new.items ≡ line.old.items ++ bytes.now) }
    ensures memory { IfErr result (λ w. w ≡ Memory) }
{
    for byte in bytes {
        line.push(char::from(*byte))?;
    }
    Ok(())
}

/// Writes a text. Fails where memory runs out.
pub fn push_text(line: &mut Vec<char>, text: &Text) -> Mem<()>
    ensures ok { OnOk result (line.new.items ≡ line.old.items ++ text.now) }
    ensures memory { IfErr result (λ w. w ≡ Memory) }
{
    line.extend_from_slice(text.as_slice())?;
    Ok(())
}

/// Writes one decimal digit. Fails where memory runs out.
fn push_digit(line: &mut Vec<char>, digit: u64) -> Mem<()>
    requires { digit < 10 }
    ensures ok { OnOk result (line.new.items ≡ line.old.items ++ (48 + digit) ∷ []) }
    ensures memory { IfErr result (λ w. w ≡ Memory) }
{
    push_char(line, char::from(b'0' + digit as u8))
}

/// Writes a number in decimals. Fails where memory runs out.
pub fn push_decimal(line: &mut Vec<char>, number: u64) -> Mem<()>
    ensures ok { OnOk result (line.new.items ≡ line.old.items ++ decimal number) }
    ensures memory { IfErr result (λ w. w ≡ Memory) }
{
    if number < 10 {
        return push_digit(line, number);
    }
    push_decimal(line, number / 10)?;
    push_digit(line, number % 10)
}

/// Writes a name's number. Fails where memory runs out.
fn push_number(line: &mut Vec<char>, number: u32) -> Mem<()>
    ensures ok { OnOk result (line.new.items ≡ line.old.items ++ number_text number) }
    ensures memory { IfErr result (λ w. w ≡ Memory) }
{
    if number == 0 {
        return Ok(());
    }
    push_char(line, '.')?;
    push_decimal(line, u64::from(number))
}

/// Writes a name. Fails where memory runs out.
pub fn push_name(line: &mut Vec<char>, name: &Name) -> Mem<()>
    ensures ok { OnOk result (line.new.items ≡ line.old.items ++ name_text name.now) }
    ensures memory { IfErr result (λ w. w ≡ Memory) }
{
    push_text(line, &name.text)?;
    push_number(line, name.number)
}

/// Writes a 1-based line and column. Fails where memory runs out.
pub fn push_place(out: &mut Vec<char>, line: u32, column: u32) -> Mem<()>
    ensures ok { OnOk result (out.new.items ≡ out.old.items ++ place_text line column) }
    ensures memory { IfErr result (λ w. w ≡ Memory) }
{
    push_decimal(out, u64::from(line))?;
    push_char(out, ':')?;
    push_decimal(out, u64::from(column))
}
