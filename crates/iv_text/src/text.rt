ghost use Rattle.std.specs.Prelude.{◌≡◌, IfOk, IfErr, IsTrue, ◌↔◌, encode_utf8_all};
ghost use Rattle.std.specs.Str.{bytes_eq};
ghost use Rattle.iv_text.specs.declared.want.Want.TheVariants.{Memory};

use crate::want::Mem;
use iv_shared::Shared;
use std::alloc::Global;
use std::marker::Model;

/// A text. Contracts see it as the list of its characters.
#[derive(Drop)]
pub struct Text {
    chars: Shared<Vec<char>>,
}

impl Model for Text {
    ghost use Rattle.std.specs.Prelude.{List, ℕ};
    ghost use Rattle.std.specs.Coded.{coded_list, coded_ℕ};

    ghost Value = { List ℕ };

    ghost coded = { coded_list coded_ℕ };

    ghost view = { λ t. t.chars.items };
}

impl Text {
    /// The text of these characters. Fails where memory runs out.
    pub fn from_vec(alloc: Global, chars: Vec<char>) -> Mem<Text>
        ensures ok { IfOk result (λ t. t ≡ chars.items) }
        ensures memory { IfErr result (λ w. w ≡ Memory) }
    {
        Ok(Text {
            chars: Shared::new(alloc, chars)?,
        })
    }

    /// The text of these characters. Fails where memory runs out.
    pub fn from_slice(alloc: Global, chars: &[char]) -> Mem<Text>
        ensures ok { IfOk result (λ t. t ≡ chars.now) }
        ensures memory { IfErr result (λ w. w ≡ Memory) }
    {
        Text::from_vec(alloc, Vec::from_slice(alloc, chars)?)
    }

    /// Its characters.
    pub fn as_slice(&self) -> &[char]
        ensures { result.now ≡ self.now }
    {
        self.chars.get().as_slice()
    }

    /// The text in UTF-8. Fails where memory runs out.
    pub fn to_utf8(&self, alloc: Global) -> Mem<Vec<u8>>
        ensures ok { IfOk result (λ v. v.items ≡ encode_utf8_all self.now) }
        ensures memory { IfErr result (λ w. w ≡ Memory) }
    {
        let mut out = String::new(alloc);
        for c in self.as_slice() {
            out.push(*c)?;
        }
        Ok(out.into_bytes())
    }

    /// Whether both are the same text.
    pub fn is(&self, other: &Text) -> bool
        ensures same { result ≡ bytes_eq self.now other.now }
        ensures equal { IsTrue result ↔ (self.now ≡ other.now) }
    {
        self.as_slice() == other.as_slice()
    }

    /// Whether it has just these characters.
    pub fn is_chars(&self, chars: &[char]) -> bool
        ensures { IsTrue result ↔ (self.now ≡ chars.now) }
    {
        self.as_slice() == chars
    }

    /// An equal text, which shares its characters. Takes no memory; fails where the count of owners is full.
    pub fn copy(&self) -> Mem<Text>
        ensures ok { IfOk result (λ t. t ≡ self.now) }
        ensures memory { IfErr result (λ w. w ≡ Memory) }
    {
        Ok(Text {
            chars: self.chars.share()?,
        })
    }
}
