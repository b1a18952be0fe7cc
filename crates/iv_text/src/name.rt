ghost use Rattle.std.specs.Prelude.{◌≡◌, IfOk, IfErr, IsTrue, ◌↔◌};
ghost use Rattle.iv_text.specs.declared.want.Want.TheVariants.{Memory};
ghost use Rattle.std.specs.Cmp.{partial_equiv_from_equiv};
ghost use Rattle.iv_text.specs.Name.{name_input, same_name, same_name-equiv, same_name-input};

use crate::text::Text;
use crate::want::Mem;
use std::hash::{Hash, Hasher};

/// A text and a number, which tells names of one text apart.
#[derive(Drop)]
pub struct Name {
    /// What is written.
    pub text: Text,
    /// 0 where none is written.
    pub number: u32,
}

impl Name {
    /// Whether both are the same name.
    pub fn is(&self, other: &Name) -> bool
        ensures same { result ≡ same_name self.now other.now }
        ensures equal { IsTrue result ↔ (self.now ≡ other.now) }
    {
        self.number == other.number && self.text.is(&other.text)
    }

    /// An equal name. Takes no memory; fails where a count of owners is full.
    pub fn copy(&self) -> Mem<Name>
        ensures ok { IfOk result (λ n. n ≡ self.now) }
        ensures memory { IfErr result (λ w. w ≡ Memory) }
    {
        Ok(Name {
            text: self.text.copy()?,
            number: self.number,
        })
    }
}

impl PartialEq for Name {
    ghost eq = { same_name };

    ghost laws = { partial_equiv_from_equiv same_name-equiv };

    fn eq(&self, other: &Name) -> bool {
        self.is(other)
    }
}

impl Eq for Name {
    ghost laws = { same_name-equiv };
}

impl Hash for Name {
    ghost hash_input = { name_input };

    ghost respects_eq = { same_name-input };

    fn hash<H: Hasher>(&self, state: &mut H) {
        self.text.as_slice().hash(state);
        self.number.hash(state);
    }
}
