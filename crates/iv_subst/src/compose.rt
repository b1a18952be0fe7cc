ghost use Rattle.std.specs.Prelude.{◌≡◌, ◌++◌, IfOk, IfErr, OnOk};
ghost use Rattle.std.specs.List.{IsDistinct};
ghost use Rattle.std.specs.Map.{keys_of};
ghost use Rattle.iv_text.specs.Name.{same_name};
ghost use Rattle.iv_text.specs.declared.want.Want.TheVariants.{Memory};
ghost use Rattle.iv_subst.specs.TySubst.{at, under, unhidden, composed};

use crate::ty_subst::TySubst;
use iv_text::Mem;
use std::alloc::Global;

impl TySubst {
    /// The map that puts this map's types, and then those of `next`. The entries of this map come first. Fails where
    /// memory runs out.
    pub fn compose(&self, alloc: Global, next: &TySubst) -> Mem<TySubst>
        ensures ok { IfOk result (λ s. s ≡ composed self.now next.now) }
        ensures memory { IfErr result (λ w. w ≡ Memory) }
    {
        let _entries = self.len();
        let _next = next.len();
        let mut both = TySubst::new(alloc);
        self.add_under(alloc, next, &mut both)?;
        next.add_unhidden(self, &mut both)?;
        Ok(both)
    }

    /// Puts all entries at the end of `both`, each value under `next`.
    fn add_under(&self, alloc: Global, next: &TySubst, both: &mut TySubst) -> Mem<()>
        requires { IsDistinct same_name (keys_of (both.old ++ under (at next.now) self.now)) }
        ensures ok { OnOk result (both.new ≡ both.old ++ under (at next.now) self.now) }
        ensures memory { IfErr result (λ w. w ≡ Memory) }
    {
        for i in 0..self.len() {
            let (name, typ) = self.entry(i);
            let typ = next.apply_typ(alloc, typ)?;
            both.push(name.copy()?, typ)?;
        }
        Ok(())
    }

    /// Puts the entries at the end of `both` whose variables have none in `first`.
    fn add_unhidden(&self, first: &TySubst, both: &mut TySubst) -> Mem<()>
        requires { IsDistinct same_name (keys_of (both.old ++ unhidden first.now self.now)) }
        ensures ok { OnOk result (both.new ≡ both.old ++ unhidden first.now self.now) }
        ensures memory { IfErr result (λ w. w ≡ Memory) }
    {
        for i in 0..self.len() {
            let (name, typ) = self.entry(i);
            if first.has(name) {
                continue;
            }
            both.push(name.copy()?, typ.copy()?)?;
        }
        Ok(())
    }
}
