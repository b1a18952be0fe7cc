//! Types put in a type.
ghost use Rattle.std.specs.Prelude.{◌≡◌, IfOk, IfErr};
ghost use Rattle.std.specs.Option.{unwrap_or};
ghost use Rattle.iv_text.specs.declared.want.Want.TheVariants.{Memory};
ghost use Rattle.iv_subst.specs.TySubst.{put_typ, put_typs, at};

use crate::ty_subst::TySubst;
use iv_term::changed_typ::{with_args, with_parts};
use iv_term::{Typ, Types};
use iv_text::{Mem, copy_of, new_or_copy};
use std::alloc::Global;

impl TySubst {
    /// The type with the map's types put for its variables, all at once. What holds no variable of the map is
    /// shared. Fails where memory runs out.
    pub fn apply_typ(&self, alloc: Global, typ: &Typ) -> Mem<Typ>
        ensures ok { IfOk result (λ t. t ≡ put_typ (at self.now) typ.now) }
        ensures memory { IfErr result (λ w. w ≡ Memory) }
    {
        new_or_copy(changed(self, alloc, typ)?, typ)
    }
}

/// The type under the map, or `None` where it stays.
#[cycle(changed)]
fn changed(s: &TySubst, alloc: Global, typ: &Typ) -> Mem<Option<Typ>>
    ensures ok { IfOk result (λ r. unwrap_or r typ.now ≡ put_typ (at s.now) typ.now) }
    ensures memory { IfErr result (λ w. w ≡ Memory) }
{
    match typ {
        Typ::Con(c, ts) => {
            let args = changed_all(s, alloc, ts)?;
            with_args(c, args)
        }
        Typ::Fixed(_a) => Ok(None),
        Typ::Schematic(x) => copy_of(s.get(x)),
    }
}

/// The types under the map, or `None` where they stay.
#[cycle(changed)]
fn changed_all(s: &TySubst, alloc: Global, typs: &Types) -> Mem<Option<Types>>
    ensures ok { IfOk result (λ r. unwrap_or r typs.now ≡ put_typs (at s.now) typs.now) }
    ensures memory { IfErr result (λ w. w ≡ Memory) }
{
    match typs {
        Types::Nil => Ok(None),
        Types::Cons(t, ts) => {
            let first = changed(s, alloc, t.get())?;
            let rest = changed_all(s, alloc, ts.get())?;
            with_parts(alloc, first, t, rest, ts)
        }
    }
}
