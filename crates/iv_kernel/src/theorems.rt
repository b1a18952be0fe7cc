ghost use Rattle.std.specs.Prelude.{◌≡◌, IfOk, IfErr};
ghost use Rattle.iv_text.specs.declared.want.Want.TheVariants.{Memory};

use crate::thm::Thm;
use iv_list::Items;
use iv_term::both;
use iv_text::{Copied, Mem, Text, copy_of};

/// A theorem with its name, where it has one.
#[derive(Drop)]
pub struct NamedThm {
    /// The name, where there is one.
    pub name: Option<Text>,
    /// The theorem.
    pub thm: Thm,
}

impl NamedThm {
    /// An equal value; its parts are shared. Takes no memory; fails where a count of owners is full.
    pub fn copy(&self) -> Mem<NamedThm>
        ensures ok { IfOk result (λ n. n ≡ self.now) }
        ensures memory { IfErr result (λ w. w ≡ Memory) }
    {
        let (name, thm) = both(copy_of(self.name.as_ref()), self.thm.copy())?;
        Ok(NamedThm { name, thm })
    }
}

impl Copied for NamedThm {
    fn copied(&self) -> Mem<NamedThm> {
        self.copy()
    }
}

/// Theorems with their names, in order. Contracts see a list.
pub type Theorems = Items<NamedThm>;
