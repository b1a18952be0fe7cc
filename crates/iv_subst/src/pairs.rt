//! Pairs of lists of types that are left to be made equal, worked off from a stack.

ghost use Rattle.std.specs.Prelude.{◌≡◌, ◌<◌, [], ◌∷◌, ◌++◌, None, IfOk, IfErr, OnOk};
ghost use Rattle.iv_term.specs.Typ.{ty_cons};
ghost use Rattle.iv_term.specs.declared.typ.Typ.TheBlock.{Nil};
ghost use Rattle.iv_text.specs.declared.want.Want.TheVariants.{Memory};
ghost use Rattle.iv_subst.specs.declared.no_unify.NoUnify.TheVariants.{Clash};
ghost use Rattle.iv_subst.specs.declared.pairs.Step.TheVariants.{Clash as step_clash};
ghost use Rattle.iv_subst.specs.TySubst.{at};
ghost use Rattle.iv_subst.specs.Unifier.{clash};
ghost use Rattle.iv_subst.specs.Solved.{solved, AreSolved};
ghost use Rattle.iv_subst.specs.Pairs.{IsStep, pairs_differ, weight, step_of, opened, assigned_by};

use crate::heads::head;
use crate::no_unify::NoUnify;
use crate::ty_subst::TySubst;
use iv_term::{Typ, Types};
use iv_text::{Mem, Name};
use std::alloc::Global;

/// What two types ask for, seen by their heads.
#[derive(Drop)]
pub(crate) enum Step {
    /// Nothing: they are equal.
    Done,
    /// Their arguments are to be made equal.
    Open(Types, Types),
    /// No substitution makes them equal.
    Clash,
    /// The variable is to be assigned the type.
    Assign(Name, Typ),
}

/// Both types as the one pair. Fails where memory runs out.
pub(crate) fn pair(alloc: Global, a: &Typ, b: &Typ) -> Mem<Vec<(Types, Types)>>
    ensures ok { IfOk result (λ ps. ps.items ≡ (ty_cons a.now Nil, ty_cons b.now Nil) ∷ []) }
    ensures memory { IfErr result (λ w. w ≡ Memory) }
{
    let left = Types::cons(alloc, a.copy()?, Types::Nil)?;
    let right = Types::cons(alloc, b.copy()?, Types::Nil)?;
    let mut pairs = Vec::new(alloc);
    pairs.push((left, right))?;
    Ok(pairs)
}

/// Works off the pairs up to the first variable that has to be assigned, and gives it with its type, or `None` at the
/// end. `Clash` where two types come first that no substitution makes equal.
pub(crate) fn next(
    es: &TySubst,
    pairs: &mut Vec<(Types, Types)>,
) -> Result<Option<(Name, Typ)>, NoUnify>
    requires { AreSolved es.now }
    ensures step { IfOk result (λ r. IsStep es.now pairs.old.items pairs.new.items r) }
    ensures end { IfOk result (λ r. r ≡ None → pairs.new.items ≡ []) }
    ensures clash { IfErr result (λ e. e ≡ Clash → pairs_differ (at (solved es.now)) pairs.old.items ≡ clash) }
{
    while let Some((left, right)) = pairs.pop() {
        let found = open(es, pairs, &left, &right)?;
        if found.is_some() {
            return Ok(found);
        }
    }
    Ok(None)
}

/// Takes the first types off both lists; what is left of the lists, and their arguments, are pairs again.
fn open(
    es: &TySubst,
    pairs: &mut Vec<(Types, Types)>,
    left: &Types,
    right: &Types,
) -> Result<Option<(Name, Typ)>, NoUnify>
    requires { AreSolved es.now }
    ensures step { IfOk result (λ r. IsStep es.now (pairs.old.items ++ (left.now, right.now) ∷ []) pairs.new.items r) }
    ensures lighter { OnOk result (weight (at (solved es.now)) pairs.new.items
        < weight (at (solved es.now)) (pairs.old.items ++ (left.now, right.now) ∷ [])) }
    ensures clash { IfErr result (λ e. e ≡ Clash → pairs_differ (at (solved es.now)) (pairs.old.items ++ (left.now, right.now) ∷ []) ≡ clash) }
{
    match left {
        Types::Nil => match right {
            Types::Nil => Ok(None),
            Types::Cons(_u, _us) => Err(NoUnify::Clash),
        },
        Types::Cons(t, ts) => match right {
            Types::Nil => Err(NoUnify::Clash),
            Types::Cons(u, us) => open_both(es, pairs, t.get(), ts.get(), u.get(), us.get()),
        },
    }
}

/// The same for two lists that have a first type.
fn open_both(
    es: &TySubst,
    pairs: &mut Vec<(Types, Types)>,
    t: &Typ,
    ts: &Types,
    u: &Typ,
    us: &Types,
) -> Result<Option<(Name, Typ)>, NoUnify>
    requires { AreSolved es.now }
    ensures step { IfOk result (λ r. IsStep es.now
        (pairs.old.items ++ (ty_cons t.now ts.now, ty_cons u.now us.now) ∷ []) pairs.new.items r) }
    ensures lighter { OnOk result (weight (at (solved es.now)) pairs.new.items
        < weight (at (solved es.now)) (pairs.old.items ++ (ty_cons t.now ts.now, ty_cons u.now us.now) ∷ [])) }
    ensures clash { IfErr result (λ e. e ≡ Clash → pairs_differ (at (solved es.now))
        (pairs.old.items ++ (ty_cons t.now ts.now, ty_cons u.now us.now) ∷ []) ≡ clash) }
{
    push(pairs, ts, us)?;
    let left = head(es, t);
    let right = head(es, u);
    let step = step_of(left, right)?;
    take(step, pairs)
}

/// Puts one more pair on the stack.
fn push(pairs: &mut Vec<(Types, Types)>, left: &Types, right: &Types) -> Mem<()>
    ensures ok { OnOk result (pairs.new.items ≡ pairs.old.items ++ (left.now, right.now) ∷ []) }
    ensures memory { IfErr result (λ w. w ≡ Memory) }
{
    pairs.push((left.copy()?, right.copy()?))?;
    Ok(())
}

/// What two heads ask for: where both are variables, the left one is assigned.
fn step_of(left: &Typ, right: &Typ) -> Mem<Step>
    ensures ok { IfOk result (λ s. s ≡ step_of left.now right.now) }
    ensures memory { IfErr result (λ w. w ≡ Memory) }
{
    match left {
        Typ::Con(c, ts) => match right {
            Typ::Con(d, us) => {
                if !c.is(d) {
                    return Ok(Step::Clash);
                }
                Ok(Step::Open(ts.copy()?, us.copy()?))
            }
            Typ::Fixed(_b) => Ok(Step::Clash),
            Typ::Schematic(y) => Ok(Step::Assign(y.copy()?, left.copy()?)),
        },
        Typ::Fixed(a) => match right {
            Typ::Con(_d, _us) => Ok(Step::Clash),
            Typ::Fixed(b) => {
                if !a.is(b) {
                    return Ok(Step::Clash);
                }
                Ok(Step::Done)
            }
            Typ::Schematic(y) => Ok(Step::Assign(y.copy()?, left.copy()?)),
        },
        Typ::Schematic(x) => match right {
            Typ::Schematic(y) => {
                if x.is(y) {
                    return Ok(Step::Done);
                }
                Ok(Step::Assign(x.copy()?, right.copy()?))
            }
            _ => Ok(Step::Assign(x.copy()?, right.copy()?)),
        },
    }
}

/// Does what a step asks for.
fn take(step: Step, pairs: &mut Vec<(Types, Types)>) -> Result<Option<(Name, Typ)>, NoUnify>
    ensures pairs { OnOk result (pairs.new.items ≡ opened step pairs.old.items) }
    ensures assigned { IfOk result (λ r. r ≡ assigned_by step) }
    ensures no_clash { OnOk result (step ≡ step_clash → ⊥) }
    ensures clash { IfErr result (λ e. e ≡ Clash → step ≡ step_clash) }
{
    match step {
        Step::Done => Ok(None),
        Step::Open(left, right) => {
            pairs.push((left, right)).map_err(|_e| NoUnify::Memory)?;
            Ok(None)
        }
        Step::Clash => Err(NoUnify::Clash),
        Step::Assign(name, typ) => Ok(Some((name, typ))),
    }
}
