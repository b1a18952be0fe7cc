//! Types under assignments, seen as far as their heads.

ghost use Rattle.std.specs.Prelude.{◌≡◌};
ghost use Rattle.std.specs.Option.{option_copied};
ghost use Rattle.iv_subst.specs.TySubst.{put_typ, put_typs, occurs, occurs_any, at};
ghost use Rattle.iv_subst.specs.Solved.{solved, AreSolved, IsHead, link};

use crate::ty_subst::TySubst;
use iv_term::{Typ, Types};
use iv_text::Name;

/// The type that a type is under assignments, as far as its head: variables are followed, and no type is made.
pub(crate) fn head<'a>(es: &'a TySubst, typ: &'a Typ) -> &'a Typ
    requires { AreSolved es.now }
    ensures same { put_typ (at (solved es.now)) result.now ≡ put_typ (at (solved es.now)) typ.now }
    ensures head { IsHead es.now result.now }
{
    let mut current = typ;
    while let Some(next) = follow(es, current) {
        current = next;
    }
    current
}

/// What a variable is assigned, if it is.
fn follow<'a>(es: &'a TySubst, typ: &Typ) -> Option<&'a Typ>
    ensures { option_copied result ≡ link es.now typ.now }
{
    match typ {
        Typ::Schematic(x) => es.get(x),
        _ => None,
    }
}

/// Whether a variable stands in a type under assignments. Takes no memory.
#[cycle(is_inside)]
pub(crate) fn is_inside(es: &TySubst, name: &Name, typ: &Typ) -> bool
    requires { AreSolved es.now }
    ensures { result ≡ occurs name.now (put_typ (at (solved es.now)) typ.now) }
{
    match head(es, typ) {
        Typ::Con(_c, ts) => is_inside_any(es, name, ts),
        Typ::Fixed(_a) => false,
        Typ::Schematic(x) => name.is(x),
    }
}

#[cycle(is_inside)]
fn is_inside_any(es: &TySubst, name: &Name, typs: &Types) -> bool
    requires { AreSolved es.now }
    ensures { result ≡ occurs_any name.now (put_typs (at (solved es.now)) typs.now) }
{
    match typs {
        Types::Nil => false,
        Types::Cons(t, ts) => {
            if is_inside(es, name, t.get()) {
                return true;
            }
            is_inside_any(es, name, ts.get())
        }
    }
}
