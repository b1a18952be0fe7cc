//! Substitutions composed.
ghost use Rattle.std.specs.Prelude.{◌≡◌, ◌++◌, IfOk, IfErr, OnOk};
ghost use Rattle.std.specs.List.{IsDistinct};
ghost use Rattle.std.specs.Map.{keys_of};
ghost use Rattle.iv_text.specs.Name.{same_name};
ghost use Rattle.iv_text.specs.declared.want.Want.TheVariants.{Memory};
ghost use Rattle.iv_put.specs.Subst.{under, unhidden, composed, CanCompose};

use crate::substitution::Subst;
use iv_text::Mem;
use std::alloc::Global;

impl Subst {
    /// The substitution that puts this one's types and terms, and then those of `next`. The entries of this one come
    /// first. Fails where memory runs out.
    pub fn compose(&self, alloc: Global, next: &Subst) -> Mem<Subst>
        requires { CanCompose self.now next.now }
        ensures ok { IfOk result (λ s. s ≡ composed self.now next.now) }
        ensures memory { IfErr result (λ w. w ≡ Memory) }
    {
        let _entries = self.len();
        let _next = next.len();
        let types = self.types().compose(alloc, next.types())?;
        let mut both = Subst::new(alloc, types);
        self.add_under(alloc, next, &mut both)?;
        next.add_unhidden(alloc, self, &mut both)?;
        Ok(both)
    }

    /// Puts all entries at the end of `both`, each value under `next`.
    fn add_under(&self, alloc: Global, next: &Subst, both: &mut Subst) -> Mem<()>
        requires fits { CanCompose self.now next.now }
        requires apart { IsDistinct same_name (keys_of (both.old.1 ++ under next.now self.now.1)) }
        ensures ok { OnOk result (both.new ≡ (both.old.0, both.old.1 ++ under next.now self.now.1)) }
        ensures memory { IfErr result (λ w. w ≡ Memory) }
    {
        for i in 0..self.len() {
            let (name, value) = self.entry(i);
            let value = next.apply(alloc, value)?;
            both.push(alloc, name.copy()?, value)?;
        }
        Ok(())
    }

    /// Puts the entries at the end of `both` whose variables have none in `first`.
    fn add_unhidden(&self, alloc: Global, first: &Subst, both: &mut Subst) -> Mem<()>
        requires { IsDistinct same_name (keys_of (both.old.1 ++ unhidden first.now.1 self.now.1)) }
        ensures ok { OnOk result (both.new ≡ (both.old.0, both.old.1 ++ unhidden first.now.1 self.now.1)) }
        ensures memory { IfErr result (λ w. w ≡ Memory) }
    {
        for i in 0..self.len() {
            let (name, value) = self.entry(i);
            if first.has(name) {
                continue;
            }
            let value = value.copy()?;
            both.push(alloc, name.copy()?, value)?;
        }
        Ok(())
    }
}
