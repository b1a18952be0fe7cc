//! Assignments put in a type, and in what they put.

ghost use Rattle.std.specs.Prelude.{◌≡◌, IfOk, IfErr};
ghost use Rattle.std.specs.Option.{unwrap_or};
ghost use Rattle.iv_text.specs.declared.want.Want.TheVariants.{Memory};
ghost use Rattle.iv_subst.specs.TySubst.{put_typ, put_typs, at};
ghost use Rattle.iv_subst.specs.Solved.{solved, AreSolved};

use crate::heads::head;
use crate::ty_subst::TySubst;
use iv_term::changed_typ::{with_args, with_parts};
use iv_term::{Typ, Types};
use iv_text::{Mem, new_or_copy};
use std::alloc::Global;

/// The type under assignments, or `None` where it stays.
#[cycle(replaced)]
pub(crate) fn replaced(es: &TySubst, alloc: Global, typ: &Typ) -> Mem<Option<Typ>>
    requires { AreSolved es.now }
    ensures ok { IfOk result (λ r. unwrap_or r typ.now ≡ put_typ (at (solved es.now)) typ.now) }
    ensures memory { IfErr result (λ w. w ≡ Memory) }
{
    match typ {
        Typ::Con(c, ts) => {
            let args = replaced_all(es, alloc, ts)?;
            with_args(c, args)
        }
        Typ::Fixed(_a) => Ok(None),
        Typ::Schematic(x) => match es.get(x) {
            None => Ok(None),
            Some(value) => {
                let top = head(es, value);
                let new = replaced(es, alloc, top)?;
                Ok(Some(new_or_copy(new, top)?))
            }
        },
    }
}

/// The types under assignments, or `None` where they stay.
#[cycle(replaced)]
fn replaced_all(es: &TySubst, alloc: Global, typs: &Types) -> Mem<Option<Types>>
    requires { AreSolved es.now }
    ensures ok { IfOk result (λ r. unwrap_or r typs.now ≡ put_typs (at (solved es.now)) typs.now) }
    ensures memory { IfErr result (λ w. w ≡ Memory) }
{
    match typs {
        Types::Nil => Ok(None),
        Types::Cons(t, ts) => {
            let first = replaced(es, alloc, t.get())?;
            let rest = replaced_all(es, alloc, ts.get())?;
            with_parts(alloc, first, t, rest, ts)
        }
    }
}

/// All assignments, each with the others put in.
pub(crate) fn spread(es: &TySubst, alloc: Global) -> Mem<TySubst>
    requires { AreSolved es.now }
    ensures ok { IfOk result (λ s. s ≡ solved es.now) }
    ensures memory { IfErr result (λ w. w ≡ Memory) }
{
    let mut all = TySubst::new(alloc);
    for i in 0..es.len() {
        let (name, typ) = es.entry(i);
        let new = replaced(es, alloc, typ)?;
        all.push(name.copy()?, new_or_copy(new, typ)?)?;
    }
    Ok(all)
}
