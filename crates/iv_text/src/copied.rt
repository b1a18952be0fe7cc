//! Equal values that share their parts, and what stays or is new.
ghost use Rattle.std.specs.Prelude.{◌≡◌, IfOk, IfErr};
ghost use Rattle.std.specs.Option.{unwrap_or, option_copied};
ghost use Rattle.iv_text.specs.declared.want.Want.TheVariants.{Memory};

use crate::name::Name;
use crate::text::Text;
use crate::want::Mem;
use iv_shared::Shared;
use std::alloc::Global;

/// Values of which an equal one is made, whose parts are shared.
pub trait Copied: Sized + Drop {
    /// An equal value. Fails where memory runs out.
    fn copied(&self) -> Mem<Self>
        ensures ok { IfOk result (λ v. v ≡ self.now) }
        ensures memory { IfErr result (λ w. w ≡ Memory) };
}

impl Copied for u32 {
    fn copied(&self) -> Mem<u32> {
        Ok(*self)
    }
}

impl Copied for Text {
    fn copied(&self) -> Mem<Text> {
        self.copy()
    }
}

impl Copied for Name {
    fn copied(&self) -> Mem<Name> {
        self.copy()
    }
}

impl<A: Copied, B: Copied> Copied for (A, B) {
    fn copied(&self) -> Mem<(A, B)> {
        let first = self.0.copied()?;
        let second = self.1.copied()?;
        Ok((first, second))
    }
}

/// The new value, or a copy of the old one. Fails where memory runs out.
pub fn new_or_copy<T: Copied>(new: Option<T>, old: &T) -> Mem<T>
    ensures ok { IfOk result (λ t. t ≡ unwrap_or new old.now) }
    ensures memory { IfErr result (λ w. w ≡ Memory) }
{
    match new {
        None => old.copied(),
        Some(value) => Ok(value),
    }
}

/// The new value, or the old one shared. Fails where memory runs out.
pub fn new_or_shared<T: Drop>(alloc: Global, new: Option<T>, old: &Shared<T>) -> Mem<Shared<T>>
    ensures ok { IfOk result (λ s. s ≡ unwrap_or new old.now) }
    ensures memory { IfErr result (λ w. w ≡ Memory) }
{
    match new {
        None => Ok(old.share()?),
        Some(value) => Ok(Shared::new(alloc, value)?),
    }
}

/// A copy of a value, if there is one. Fails where memory runs out.
pub fn copy_of<T: Copied>(found: Option<&T>) -> Mem<Option<T>>
    ensures ok { IfOk result (λ r. r ≡ option_copied found.entry) }
    ensures memory { IfErr result (λ w. w ≡ Memory) }
{
    match found {
        None => Ok(None),
        Some(value) => Ok(Some(value.copied()?)),
    }
}
