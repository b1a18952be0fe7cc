//! The occurs test of unification, which looks at the value of each assigned variable once.

ghost use Rattle.std.specs.Prelude.{◌≡◌, ◌⊎◌, [], ◌∷◌, ◌++◌, Some, IfOk, IfErr, OnOk};
ghost use Rattle.std.specs.Map.{keys_of};
ghost use Rattle.iv_term.specs.declared.typ.Typ.TheBlock.{Schematic};
ghost use Rattle.iv_text.specs.declared.want.Want.TheVariants.{Memory};
ghost use Rattle.iv_subst.specs.TySubst.{put_typ, put_typs, occurs, occurs_any, seek, at};
ghost use Rattle.iv_subst.specs.Solved.{solved, AreSolved, AreFree};

use crate::ty_subst::TySubst;
use iv_map::NameMap;
use iv_term::{Typ, Types};
use iv_text::{Mem, Name};
use std::alloc::Global;

/// Whether a variable stands in a type under assignments. Fails where memory runs out.
pub(crate) fn occurs(es: &TySubst, alloc: Global, name: &Name, typ: &Typ) -> Mem<bool>
    requires { AreSolved es.now }
    ensures ok { IfOk result (λ b. b ≡ occurs name.now (put_typ (at (solved es.now)) typ.now)) }
    ensures memory { IfErr result (λ w. w ≡ Memory) }
{
    let mut free = NameMap::new(alloc);
    stands(es, name, typ, &mut free)
}

/// The same, where the variables that were found free of the name are known. Those that are found so are entered.
#[cycle(stands)]
fn stands(es: &TySubst, name: &Name, typ: &Typ, free: &mut NameMap<()>) -> Mem<bool>
    requires solved { AreSolved es.now }
    requires free { AreFree es.now name.now (keys_of free.old) }
    ensures free { OnOk result (AreFree es.now name.now (keys_of free.new)) }
    ensures ok { IfOk result (λ b. b ≡ occurs name.now (put_typ (at (solved es.now)) typ.now)) }
    ensures memory { IfErr result (λ w. w ≡ Memory) }
{
    match typ {
        Typ::Con(_c, ts) => stands_in_any(es, name, ts, free),
        Typ::Fixed(_a) => Ok(false),
        Typ::Schematic(x) => match es.get(x) {
            None => Ok(name.is(x)),
            Some(value) => stands_in_value(es, name, x, value, free),
        },
    }
}

/// The same for what a variable is assigned.
#[cycle(stands)]
fn stands_in_value(
    es: &TySubst,
    name: &Name,
    x: &Name,
    value: &Typ,
    free: &mut NameMap<()>,
) -> Mem<bool>
    requires solved { AreSolved es.now }
    requires assigned { seek es.now x.now ≡ Some value.now }
    requires free { AreFree es.now name.now (keys_of free.old) }
    ensures free { OnOk result (AreFree es.now name.now (keys_of free.new)) }
    ensures ok { IfOk result (λ b. b ≡ occurs name.now (put_typ (at (solved es.now)) (Schematic x.now))) }
    ensures memory { IfErr result (λ w. w ≡ Memory) }
{
    if free.has(x) {
        return Ok(false);
    }
    if stands(es, name, value, free)? {
        return Ok(true);
    }
    enter(free, x)?;
    Ok(false)
}

/// The same for types.
#[cycle(stands)]
fn stands_in_any(es: &TySubst, name: &Name, typs: &Types, free: &mut NameMap<()>) -> Mem<bool>
    requires solved { AreSolved es.now }
    requires free { AreFree es.now name.now (keys_of free.old) }
    ensures free { OnOk result (AreFree es.now name.now (keys_of free.new)) }
    ensures ok { IfOk result (λ b. b ≡ occurs_any name.now (put_typs (at (solved es.now)) typs.now)) }
    ensures memory { IfErr result (λ w. w ≡ Memory) }
{
    match typs {
        Types::Nil => Ok(false),
        Types::Cons(t, ts) => {
            if stands(es, name, t.get(), free)? {
                return Ok(true);
            }
            stands_in_any(es, name, ts.get(), free)
        }
    }
}

/// Enters a name, unless it is there. Fails where memory runs out.
fn enter(names: &mut NameMap<()>, name: &Name) -> Mem<()>
    ensures entered { OnOk result ((names.new ≡ names.old) ⊎ (keys_of names.new ≡ keys_of names.old ++ name.now ∷ [])) }
    ensures memory { IfErr result (λ w. w ≡ Memory) }
{
    if names.has(name) {
        return Ok(());
    }
    names.push(name.copy()?, ())
}
