//! The delimiters of inner texts, and the spellings of declared symbols.
ghost use Rattle.std.specs.Prelude.{◌≡◌, ◌⊎◌, ◌∷◌, [], ◌++◌, map, find, IfOk, IfErr, OnOk, OnErr};
ghost use Rattle.std.specs.Option.{option_map};
ghost use Rattle.std.specs.Str.{bytes_eq};
ghost use Rattle.iv_text.specs.declared.want.Want.TheVariants.{Memory};
ghost use Rattle.iv_text.specs.Symbol.{symbols};
ghost use Rattle.iv_grammar.specs.Delimiter.{delimiters, declared_as};

use crate::sign::Sign;
use crate::symbols::Symbols;
use iv_text::{Mem, Text};
use std::alloc::Global;

const DELIMITERS: &[(&[char], Sign)] = &[
    (&['('], Sign::Open),
    (&[')'], Sign::Close),
    (&[':', ':'], Sign::Colons),
    (&['.'], Sign::Dot),
    (&[';'], Sign::Semicolon),
    (&[','], Sign::Comma),
    (&['['], Sign::OpenTypes),
    (&[']'], Sign::CloseTypes),
    (&['P', 'R', 'O', 'P'], Sign::Prop),
    (&['_'], Sign::Dummy),
    (&['.', '.', '.'], Sign::Dots),
    (&['%'], Sign::Lambda),
    (
        &['\\', '<', 'l', 'a', 'm', 'b', 'd', 'a', '>'],
        Sign::Lambda,
    ),
    (&['\u{03BB}'], Sign::Lambda),
    (&['=', '='], Sign::Equals),
    (&['\\', '<', 'e', 'q', 'u', 'i', 'v', '>'], Sign::Equals),
    (&['\u{2261}'], Sign::Equals),
    (&['=', '=', '>'], Sign::Implies),
    (
        &[
            '\\', '<', 'L', 'o', 'n', 'g', 'r', 'i', 'g', 'h', 't', 'a', 'r', 'r', 'o', 'w', '>',
        ],
        Sign::Implies,
    ),
    (&['\u{27F9}'], Sign::Implies),
    (&['!', '!'], Sign::All),
    (&['\\', '<', 'A', 'n', 'd', '>'], Sign::All),
    (&['\u{22C0}'], Sign::All),
    (&['=', '>'], Sign::Arrow),
    (
        &[
            '\\', '<', 'R', 'i', 'g', 'h', 't', 'a', 'r', 'r', 'o', 'w', '>',
        ],
        Sign::Arrow,
    ),
    (&['\u{21D2}'], Sign::Arrow),
    (&['[', '|'], Sign::OpenPremises),
    (
        &['\\', '<', 'l', 'b', 'r', 'a', 'k', 'k', '>'],
        Sign::OpenPremises,
    ),
    (&['\u{27E6}'], Sign::OpenPremises),
    (&['|', ']'], Sign::ClosePremises),
    (
        &['\\', '<', 'r', 'b', 'r', 'a', 'k', 'k', '>'],
        Sign::ClosePremises,
    ),
    (&['\u{27E7}'], Sign::ClosePremises),
];

/// Symbols of a table. Fails where memory runs out.
pub(crate) fn of_table(alloc: Global, table: &[(&[char], Sign)]) -> Mem<Symbols>
    ensures ok { IfOk result (λ s. s ≡ map (λ e. (e.0.now, e.1)) table.now) }
    ensures memory { IfErr result (λ w. w ≡ Memory) }
{
    let mut symbols = Symbols::empty(alloc);
    for (text, sign) in table {
        symbols.push(Text::from_slice(alloc, text)?, *sign)?;
    }
    Ok(symbols)
}

/// The printed spellings of symbols, with their characters.
const CHARACTERS: &[(&[char], char)] = &[
    (&['!', '!'], '\u{22C0}'),
    (&['=', '=', '>'], '\u{27F9}'),
    (&['=', '='], '\u{2261}'),
    (&['%'], '\u{03BB}'),
    (&['=', '>'], '\u{21D2}'),
    (&['[', '|'], '\u{27E6}'),
    (&['|', ']'], '\u{27E7}'),
    (&['\\', '<', 'o', 'p', 'e', 'n', '>'], '\u{2039}'),
    (&['\\', '<', 'c', 'l', 'o', 's', 'e', '>'], '\u{203A}'),
    (&['\\', '<', 'b', 'a', 'r', '>'], '\u{00A6}'),
];

/// What a table has first for a text.
pub(crate) fn found(text: &[char], table: &[(&[char], char)]) -> Option<char>
    ensures { result ≡ option_map (λ e. e.1) (find (λ e. bytes_eq text.now e.0.now) table.now) }
{
    for (printed, c) in table {
        if text == *printed {
            return Some(*c);
        }
    }
    None
}

/// The character of a symbol, where the table of symbols has one for its printed spelling.
pub(crate) fn character_of(symbol: &[char]) -> Option<char>
    ensures { result ≡ option_map (λ r. r.character) (find (λ r. bytes_eq symbol.now r.printed) symbols) }
{
    found(symbol, CHARACTERS)
}

impl Symbols {
    /// The delimiters alone. Fails where memory runs out.
    pub fn new(alloc: Global) -> Mem<Symbols>
        ensures ok { IfOk result (λ s. s ≡ delimiters) }
        ensures memory { IfErr result (λ w. w ≡ Memory) }
    {
        of_table(alloc, DELIMITERS)
    }

    /// Puts a declared symbol at the end, in each of its spellings; it is given as it is printed. Fails where memory runs out;
    /// the symbols are then as before, or have its first spelling alone.
    pub fn declare(&mut self, alloc: Global, symbol: Text, sign: Sign) -> Mem<()>
        ensures ok { OnOk result (self.new ≡ self.old ++ declared_as symbol sign) }
        ensures err { OnErr result ((self.new ≡ self.old) ⊎ (self.new ≡ self.old ++ (symbol, sign) ∷ [])) }
        ensures memory { IfErr result (λ w. w ≡ Memory) }
    {
        match character_of(symbol.as_slice()) {
            None => self.push(symbol, sign),
            Some(c) => {
                let character = Text::from_slice(alloc, &[c])?;
                self.push(symbol, sign)?;
                self.push(character, sign)
            }
        }
    }
}
