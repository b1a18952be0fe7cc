//! Unification of types over assignments.

ghost use Rattle.std.specs.Prelude.{◌≡◌, Some, None, IfErr, OnOk};
ghost use Rattle.iv_subst.specs.declared.no_unify.NoUnify.TheVariants.{Clash};
ghost use Rattle.iv_subst.specs.Unifier.{unified};
ghost use Rattle.iv_subst.specs.Solved.{solved, AreSolved};

use crate::no_unify::NoUnify;
use crate::occurs::occurs;
use crate::pairs::{next, pair};
use crate::ty_subst::TySubst;
use iv_term::Typ;
use std::alloc::Global;

/// Adds the assignments that make two types equal.
pub(crate) fn unify(es: &mut TySubst, alloc: Global, a: &Typ, b: &Typ) -> Result<(), NoUnify>
    requires { AreSolved es.old }
    ensures keeps { AreSolved es.new }
    ensures ok { OnOk result (unified a.now b.now (solved es.old) ≡ Some (solved es.new)) }
    ensures clash { IfErr result (λ e. e ≡ Clash → unified a.now b.now (solved es.old) ≡ None) }
{
    let mut pairs = pair(alloc, a, b)?;
    while let Some((name, typ)) = next(es, &mut pairs)? {
        if occurs(es, alloc, &name, &typ)? {
            return Err(NoUnify::Clash);
        }
        es.push(name, typ)?;
    }
    Ok(())
}
