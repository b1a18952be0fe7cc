ghost use Rattle.std.specs.Prelude.{◌≡◌, ℕ, ◌-◌, ◌≤◌, ◌<◌, [], ◌∷◌, length, slice_get, Some, IfOk, IfErr, IsTrue, ◌↔◌};
ghost use Rattle.iv_text.specs.declared.want.Want.TheVariants.{Memory};
ghost use Rattle.iv_term.specs.declared.term.Term.TheBlock.{Nil};
ghost use Rattle.iv_term.specs.Term.{imp, tm_cons};
ghost use Rattle.iv_hsub.specs.Hhf.{hhf};
ghost use Rattle.iv_rules.specs.declared.derivation.Derivation.TheBlock.{Assume};
ghost use Rattle.iv_rules.specs.Derivation.{imp_intr, conv};
ghost use Rattle.iv_rules.specs.Sequent.{IsProp};
ghost use Rattle.iv_kernel.specs.Goal.{goal_prop, premises_of, IsInForm, AreInForm, IsGoal};

use crate::thm::Thm;
use iv_hsub::laws::hhf_is_a_normal_form;
use iv_hsub::{hhf, is_prop};
use iv_rules::laws::hypotheses_are_told_apart;
use iv_term::{Term, both};
use iv_text::Mem;
use std::alloc::Global;
use std::marker::Model;

/// A goal: a theorem `S1 ==> .. ==> Sn ==> C`, read as the subgoals S1 to Sn that are left of the claim C.
/// Each counts as a unit, since the goal keeps n. In each subgoal every `!!` stands in front of `==>`.
#[derive(Drop)]
pub struct Goal {
    thm: Thm,
    count: u32,
    claim: Term,
}

impl Model for Goal {
    ghost use Rattle.std.specs.Coded.{codes};
    ghost use Rattle.iv_term.specs.contracts.term.Term as a_term;
    ghost use Rattle.iv_kernel.specs.contracts.thm.Thm as a_thm;
    ghost use Rattle.iv_kernel.specs.Goal.{OpenGoal};

    ghost Value = { OpenGoal };

    ghost coded = { Prim.hlevel (codes, a_term.the_row.coded, a_thm.the_row.coded) };

    ghost use Rattle.iv_kernel.specs.Goal.{premises_of, IsGoal};

    ghost view = { λ g. record { subgoals = premises_of g.count g.thm.prop; claim = g.claim; thm = g.thm } };

    ghost invariant = { λ g. IsGoal g.count g.thm.prop g.claim };
}

impl Goal {
    /// A claim as its own only subgoal, with each `!!` in front of `==>`. Fails where memory runs out.
    pub fn init(alloc: Global, claim: &Term) -> Mem<Goal>
        requires { IsProp claim.now }
        ensures subgoals { IfOk result (λ g. g.subgoals ≡ hhf claim.now ∷ []) }
        ensures claim { IfOk result (λ g. g.claim ≡ claim.now) }
        ensures hyps { IfOk result (λ g. g.thm.hyps ≡ Nil) }
        ensures derivation { IfOk result (λ g. g.thm.derivation ≡ imp_intr (hhf claim.now) (conv claim.now (Assume (hhf claim.now)))) }
        ensures memory { IfErr result (λ w. w ≡ Memory) }
    {
        hhf_is_a_normal_form();
        let thm = form_implies(alloc, claim)?;
        Goal::made(thm, 1, claim)
    }

    /// Whether the condition of [`init`](Goal::init) holds. Takes no memory.
    pub fn can_init(claim: &Term) -> bool
        ensures { IsTrue result ↔ IsProp claim.now }
    {
        is_prop(claim)
    }

    /// A theorem whose proposition is `S1 ==> .. ==> Sn ==> claim`, as a goal with n subgoals, in each of which every `!!`
    /// stands in front of `==>`. Fails where a count of owners is full.
    pub fn made(thm: Thm, count: u32, claim: &Term) -> Mem<Goal>
        requires { IsGoal count thm.prop claim.now }
        ensures subgoals { IfOk result (λ g. g.subgoals ≡ premises_of count thm.prop) }
        ensures claim { IfOk result (λ g. g.claim ≡ claim.now) }
        ensures thm { IfOk result (λ g. g.thm ≡ thm) }
        ensures memory { IfErr result (λ w. w ≡ Memory) }
    {
        let claim = claim.copy()?;
        Ok(Goal { thm, count, claim })
    }

    /// Whether the condition of [`made`](Goal::made) holds. Fails where memory runs out.
    pub fn can_make(alloc: Global, thm: &Thm, count: u32, claim: &Term) -> Mem<bool>
        ensures ok { IfOk result (λ b. IsTrue b ↔ IsGoal count thm.now.prop claim.now) }
        ensures memory { IfErr result (λ w. w ≡ Memory) }
    {
        leads_to(alloc, thm.prop(), count, claim)
    }

    /// How many subgoals are left.
    pub fn count(&self) -> u32
        ensures { result ≡ length self.now.subgoals }
    {
        self.count
    }

    /// The subgoal at a place, counted from 1.
    pub fn subgoal(&self, i: u32) -> &Term
        requires from { 1 ≤ i }
        requires to { i ≤ length self.now.subgoals }
        ensures { slice_get self.now.subgoals (i - 1) ≡ Some result.now }
    {
        premise(self.thm.prop(), i - 1, self.count)
    }

    /// The claim.
    pub fn claim(&self) -> &Term
        ensures { result.now ≡ self.now.claim }
    {
        &self.claim
    }

    /// The theorem that leads from the subgoals to the claim.
    pub fn thm(&self) -> &Thm
        ensures same { result.now ≡ self.now.thm }
        ensures prop { self.now.thm.prop ≡ goal_prop self.now.subgoals self.now.claim }
        ensures form { AreInForm self.now.subgoals }
    {
        &self.thm
    }

    /// The theorem of a goal without subgoals, which proves its claim.
    pub fn finish(self) -> Thm
        requires { self.subgoals ≡ [] }
        ensures thm { result ≡ self.thm }
        ensures prop { result.prop ≡ self.claim }
    {
        let Goal {
            thm,
            count: _count,
            claim,
        } = self;
        drop(claim);
        thm
    }

    /// An equal goal, which shares its parts. Takes no memory; fails where a count of owners is full.
    pub fn copy(&self) -> Mem<Goal>
        ensures ok { IfOk result (λ g. g ≡ self.now) }
        ensures memory { IfErr result (λ w. w ≡ Memory) }
    {
        let (thm, claim) = both(self.thm.copy(), self.claim.copy())?;
        Ok(Goal {
            thm,
            count: self.count,
            claim,
        })
    }
}

/// `hhf claim |- claim`.
fn from_form(alloc: Global, form: &Term, claim: &Term) -> Mem<Thm>
    requires claim { IsProp claim.now }
    requires form { form.now ≡ hhf claim.now }
    ensures prop { IfOk result (λ r. r.prop ≡ claim.now) }
    ensures hyps { IfOk result (λ r. r.hyps ≡ tm_cons form.now Nil) }
    ensures derivation { IfOk result (λ r. r.derivation ≡ conv claim.now (Assume form.now)) }
    ensures memory { IfErr result (λ w. w ≡ Memory) }
{
    hhf_is_a_normal_form();
    let assumed = Thm::assume(alloc, form)?;
    Thm::conv(alloc, claim, &assumed)
}

/// `|- form ==> claim`, for the claim's form.
fn implied(alloc: Global, form: &Term, claim: &Term) -> Mem<Thm>
    requires claim { IsProp claim.now }
    requires form { form.now ≡ hhf claim.now }
    ensures prop { IfOk result (λ r. r.prop ≡ imp form.now claim.now) }
    ensures hyps { IfOk result (λ r. r.hyps ≡ Nil) }
    ensures derivation { IfOk result (λ r. r.derivation ≡ imp_intr form.now (conv claim.now (Assume form.now))) }
    ensures memory { IfErr result (λ w. w ≡ Memory) }
{
    hhf_is_a_normal_form();
    hypotheses_are_told_apart();
    let concluded = from_form(alloc, form, claim)?;
    Thm::imp_intr(alloc, form, &concluded)
}

/// `|- hhf claim ==> claim`.
fn form_implies(alloc: Global, claim: &Term) -> Mem<Thm>
    requires { IsProp claim.now }
    ensures prop { IfOk result (λ r. r.prop ≡ imp (hhf claim.now) claim.now) }
    ensures hyps { IfOk result (λ r. r.hyps ≡ Nil) }
    ensures derivation { IfOk result (λ r. r.derivation ≡ imp_intr (hhf claim.now) (conv claim.now (Assume (hhf claim.now)))) }
    ensures memory { IfErr result (λ w. w ≡ Memory) }
{
    let form = hhf(alloc, claim)?;
    let thm = implied(alloc, &form, claim);
    drop(form);
    thm
}

/// Whether a term has each `!!` in front of `==>`.
fn is_in_form(alloc: Global, t: &Term) -> Mem<bool>
    ensures ok { IfOk result (λ b. IsTrue b ↔ IsInForm t.now) }
    ensures memory { IfErr result (λ w. w ≡ Memory) }
{
    let form = hhf(alloc, t)?;
    let is_same = form.is(t);
    drop(form);
    Ok(is_same)
}

/// Whether a proposition leads from `count` premises in the form to a claim.
fn leads_to(alloc: Global, prop: &Term, count: u32, claim: &Term) -> Mem<bool>
    ensures ok { IfOk result (λ b. IsTrue b ↔ IsGoal count prop.now claim.now) }
    ensures memory { IfErr result (λ w. w ≡ Memory) }
{
    if count == 0 {
        return Ok(prop.is(claim));
    }
    if !prop.is_implication() {
        return Ok(false);
    }
    let formed = is_in_form(alloc, prop.antecedent())?;
    if !formed {
        return Ok(false);
    }
    leads_to(alloc, prop.consequent(), count - 1, claim)
}

/// The premise of a proposition behind `skipped` others, of `count` premises.
fn premise(prop: &Term, skipped: u32, count: u32) -> &Term
    requires { skipped < count }
    ensures { slice_get (premises_of count prop.now) skipped ≡ Some result.now }
{
    if skipped == 0 {
        return prop.antecedent();
    }
    premise(prop.consequent(), skipped - 1, count - 1)
}
