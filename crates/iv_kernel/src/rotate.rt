//! A goal with its subgoals in another order.
ghost use Rattle.std.specs.Prelude.{◌≡◌, ◌-◌, ◌≤◌, ◌⊎◌, List, ◌++◌, length, slice_get, Some, IfOk, IfErr};
ghost use Rattle.std.specs.List.{AllByRecursion};
ghost use Rattle.iv_text.specs.declared.want.Want.TheVariants.{Memory};
ghost use Rattle.iv_term.specs.declared.term.Term.{Term as Tree};
ghost use Rattle.iv_term.specs.declared.term.Term.TheBlock.{Nil};
ghost use Rattle.iv_term.specs.Hyps.{union};
ghost use Rattle.iv_term.specs.Term.{IsImplication, antecedent, consequent, tm_cons};
ghost use Rattle.iv_rules.specs.Sequent.{AreProps};
ghost use Rattle.iv_rules.specs.Rules.{axioms_of};
ghost use Rattle.iv_kernel.specs.Goal.{goal_prop, premises_of, IsGoalProp};
ghost use Rattle.iv_kernel.specs.Order.{removed, inserted, listed, IsIn, AreIn};

use crate::goal::Goal;
use crate::thm::Thm;
use iv_rules::laws::{hypotheses_are_told_apart, parts_of_propositions};
use iv_term::{Term, Terms};
use iv_text::Mem;
use std::alloc::Global;

/// The premises of a proposition, of which there are `count`.
fn premises(alloc: Global, prop: &Term, count: u32) -> Mem<Terms>
    ensures ok { IfOk result (λ ts. listed ts ≡ premises_of count prop.now) }
    ensures memory { IfErr result (λ w. w ≡ Memory) }
{
    if count == 0 {
        return Ok(Terms::Nil);
    }
    let rest = premises(alloc, prop.consequent(), count - 1)?;
    Terms::cons(alloc, prop.antecedent().copy()?, rest)
}

/// Some terms without the one at a place.
fn without_at(alloc: Global, ts: &Terms, place: u32) -> Mem<Terms>
    ensures ok { IfOk result (λ r. listed r ≡ removed place (listed ts.now)) }
    ensures memory { IfErr result (λ w. w ≡ Memory) }
{
    match ts {
        Terms::Nil => Ok(Terms::Nil),
        Terms::Cons(t, rest) => {
            if place == 0 {
                return rest.get().copy();
            }
            let more = without_at(alloc, rest.get(), place - 1)?;
            Terms::cons(alloc, t.get().copy()?, more)
        }
    }
}

/// Some terms with one more at a place.
fn with_at(alloc: Global, ts: &Terms, place: u32, t: &Term) -> Mem<Terms>
    ensures ok { IfOk result (λ r. listed r ≡ inserted place t.now (listed ts.now)) }
    ensures memory { IfErr result (λ w. w ≡ Memory) }
{
    if place == 0 {
        return Terms::cons(alloc, t.copy()?, ts.copy()?);
    }
    match ts {
        Terms::Nil => Terms::only(alloc, t),
        Terms::Cons(u, rest) => {
            let more = with_at(alloc, rest.get(), place - 1, t)?;
            Terms::cons(alloc, u.get().copy()?, more)
        }
    }
}

/// A goal's subgoals, where the one at place `from` is moved to place `to`.
fn order(alloc: Global, goal: &Goal, from: u32, to: u32) -> Mem<Terms>
    requires first { 1 ≤ from }
    requires last { from ≤ length goal.now.subgoals }
    requires second { 1 ≤ to }
    ensures ok { (x : Tree) → slice_get goal.now.subgoals (from - 1) ≡ Some x
        → IfOk result (λ ts. listed ts ≡ inserted (to - 1) x (removed (from - 1) goal.now.subgoals)) }
    ensures memory { IfErr result (λ w. w ≡ Memory) }
{
    let subgoals = premises(alloc, goal.thm().prop(), goal.count())?;
    let others = without_at(alloc, &subgoals, from - 1)?;
    with_at(alloc, &others, to - 1, goal.subgoal(from))
}

/// What a theorem concludes from its first premise, with that as a hypothesis.
fn first_assumed(alloc: Global, thm: &Thm) -> Mem<Thm>
    requires { IsImplication thm.now.prop }
    ensures prop { IfOk result (λ t. t.prop ≡ consequent thm.now.prop) }
    ensures hyps { IfOk result (λ t. t.hyps ≡ union thm.now.hyps (tm_cons (antecedent thm.now.prop) Nil)) }
    ensures axioms { IfOk result (λ t. axioms_of t.derivation ≡ axioms_of thm.now.derivation) }
    ensures memory { IfErr result (λ w. w ≡ Memory) }
{
    parts_of_propositions();
    let assumed = Thm::assume(alloc, thm.prop().antecedent())?;
    Thm::imp_elim(alloc, thm, &assumed)
}

/// The claim, with the premises of a theorem, of which there are `count`, as hypotheses.
fn opened(alloc: Global, thm: Thm, count: u32, claim: &Term) -> Mem<Thm>
    requires { IsGoalProp count thm.prop claim.now }
    ensures prop { IfOk result (λ r. r.prop ≡ claim.now) }
    ensures hyps { (ts : List Tree) → AreIn thm.hyps ts → AllByRecursion (λ t. IsIn t ts) (premises_of count thm.prop) → IfOk result (λ r. AreIn r.hyps ts) }
    ensures axioms { IfOk result (λ r. axioms_of r.derivation ≡ axioms_of thm.derivation) }
    ensures memory { IfErr result (λ w. w ≡ Memory) }
{
    if count == 0 {
        return Ok(thm);
    }
    let next = first_assumed(alloc, &thm)?;
    opened(alloc, next, count - 1, claim)
}

/// A theorem with propositions discharged, the last one first.
fn discharged(alloc: Global, props: &Terms, thm: &Thm) -> Mem<Thm>
    requires { AreProps props.now }
    ensures prop { IfOk result (λ r. r.prop ≡ goal_prop (listed props.now) thm.now.prop) }
    ensures hyps { (ts : List Tree) → AreIn thm.now.hyps (listed props.now ++ ts) → IfOk result (λ r. AreIn r.hyps ts) }
    ensures axioms { IfOk result (λ r. axioms_of r.derivation ≡ axioms_of thm.now.derivation) }
    ensures memory { IfErr result (λ w. w ≡ Memory) }
{
    hypotheses_are_told_apart();
    match props {
        Terms::Nil => thm.copy(),
        Terms::Cons(first, rest) => {
            let inner = discharged(alloc, rest.get(), thm)?;
            Thm::imp_intr(alloc, first.get(), &inner)
        }
    }
}

/// A theorem `S1 ==> .. ==> Sn ==> C` with its premises in another order, where none is left out. A hypothesis that is a
/// premise is discharged with it.
fn reordered(alloc: Global, thm: &Thm, count: u32, claim: &Term, order: &Terms) -> Mem<Thm>
    requires goal { IsGoalProp count thm.now.prop claim.now }
    requires props { AreProps order.now }
    requires each { AllByRecursion (λ t. IsIn t (listed order.now ++ listed thm.now.hyps)) (premises_of count thm.now.prop) }
    ensures prop { IfOk result (λ r. r.prop ≡ goal_prop (listed order.now) claim.now) }
    ensures hyps { IfOk result (λ r. AreIn r.hyps (listed thm.now.hyps)) }
    ensures axioms { IfOk result (λ r. axioms_of r.derivation ≡ axioms_of thm.now.derivation) }
    ensures memory { IfErr result (λ w. w ≡ Memory) }
{
    let whole = thm.copy()?;
    let open = opened(alloc, whole, count, claim)?;
    discharged(alloc, order, &open)
}

impl Goal {
    /// The goal with the subgoal at place `from` moved to place `to`, counted from 1. Its hypotheses are among those of this
    /// one. Fails where memory runs out.
    pub fn rotate(&self, alloc: Global, from: u32, to: u32) -> Mem<Goal>
        requires first { 1 ≤ from }
        requires last { from ≤ length self.now.subgoals }
        requires second { 1 ≤ to }
        requires end { to ≤ length self.now.subgoals }
        ensures subgoals { (x : Tree) → slice_get self.now.subgoals (from - 1) ≡ Some x
            → IfOk result (λ g. g.subgoals ≡ inserted (to - 1) x (removed (from - 1) self.now.subgoals)) }
        ensures claim { IfOk result (λ g. g.claim ≡ self.now.claim) }
        ensures among { IfOk result (λ g. AreIn g.thm.hyps (listed self.now.thm.hyps)) }
        ensures axioms { IfOk result (λ g. axioms_of g.thm.derivation ≡ axioms_of self.now.thm.derivation) }
        ensures memory { IfErr result (λ w. w ≡ Memory) }
    {
        parts_of_propositions();
        let order = order(alloc, self, from, to)?;
        let _moved = self.subgoal(from);
        let _prop = self.thm().prop();
        let thm = reordered(alloc, self.thm(), self.count(), self.claim(), &order)?;
        Goal::made(thm, self.count(), self.claim())
    }
}
