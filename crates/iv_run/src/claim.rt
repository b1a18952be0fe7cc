ghost use Rattle.std.specs.Prelude.{◌≡◌, true, false, [], ◌∷◌, IfOk, IfErr, MatchOption};
ghost use Rattle.iv_text.specs.declared.want.Want.TheVariants.{Memory};
ghost use Rattle.iv_term.specs.declared.term.Term.TheBlock.{Nil};
ghost use Rattle.iv_rules.specs.Rules.{axioms_of};
ghost use Rattle.iv_run.specs.Closed.{IsClosed};
ghost use Rattle.iv_run.specs.Open.{IsOpen};
ghost use Rattle.iv_run.specs.Statement.{free_var, schematic_var, statement_of, is_solved};

use crate::prove::{from_conclusion, generalised};
use crate::statement;
use iv_kernel::{Goal, Thm};
use iv_rules::laws::parts_of_propositions;
use iv_statement::Parts;
use iv_text::{Mem, Text};
use std::alloc::Global;

/// A statement to be proved, with the goal that is left of it.
#[derive(Drop)]
pub struct Claim {
    /// The name of the theorem to be.
    pub label: Text,
    /// The parts of the statement.
    pub parts: Parts,
    /// What is left to prove.
    pub goal: Goal,
}

/// The goal of a statement, which has it as its only subgoal. Fails where memory runs out.
fn goal_of(alloc: Global, parts: &Parts) -> Mem<Goal>
    ensures claim { IfOk result (λ g. g.claim ≡ statement_of free_var parts.now) }
    ensures subgoals { IfOk result (λ g. g.subgoals ≡ statement_of free_var parts.now ∷ []) }
    ensures hyps { IfOk result (λ g. g.thm.hyps ≡ Nil) }
    ensures axioms { IfOk result (λ g. axioms_of g.thm.derivation ≡ []) }
    ensures memory { IfErr result (λ w. w ≡ Memory) }
{
    parts_of_propositions();
    let (premises, conclusion) = parts.split();
    let claim = statement::statement(alloc, premises, conclusion)?;
    let goal = Goal::init(alloc, &claim);
    drop(claim);
    goal
}

impl Claim {
    /// A statement as a claim with itself as the only subgoal. Fails where memory runs out.
    pub fn open(alloc: Global, label: &Text, parts: &Parts) -> Mem<Claim>
        ensures label { IfOk result (λ c. c.label ≡ label.now) }
        ensures parts { IfOk result (λ c. c.parts ≡ parts.now) }
        ensures open { IfOk result (λ c. IsOpen c) }
        ensures memory { IfErr result (λ w. w ≡ Memory) }
    {
        let label = label.copy()?;
        let own = parts.copy()?;
        let goal = goal_of(alloc, parts)?;
        Ok(Claim {
            label,
            parts: own,
            goal,
        })
    }

    /// A statement that has its conclusion as a premise, as a theorem over its free variables. Fails where memory runs out.
    fn discharged(&self, alloc: Global) -> Mem<Thm>
        requires open { IsOpen self.now }
        requires solved { is_solved self.now.parts ≡ true }
        ensures prop { IfOk result (λ t. t.prop ≡ statement_of free_var self.now.parts) }
        ensures hyps { IfOk result (λ t. t.hyps ≡ Nil) }
        ensures axioms { IfOk result (λ t. axioms_of t.derivation ≡ []) }
        ensures memory { IfErr result (λ w. w ≡ Memory) }
    {
        let (premises, conclusion) = self.parts.split();
        let solved = from_conclusion(alloc, premises, conclusion)?;
        let thm = Thm::imp_elim(alloc, self.goal.thm(), &solved);
        drop(solved);
        let thm = thm?;
        let goal = Goal::made(thm, 0, self.goal.claim())?;
        Ok(goal.finish())
    }

    /// The theorem of a statement that has its conclusion as a premise, with its free variables schematic; `None` where no
    /// premise is the conclusion. Fails where memory runs out.
    pub fn prove(&self, alloc: Global) -> Mem<Option<Thm>>
        requires { IsOpen self.now }
        ensures solved { IfOk result (λ r. MatchOption r (is_solved self.now.parts ≡ false) (λ t. is_solved self.now.parts ≡ true)) }
        ensures prop { IfOk result (λ r. MatchOption r (Unit {0}) (λ t. t.prop ≡ statement_of schematic_var self.now.parts)) }
        ensures closed { IfOk result (λ r. MatchOption r (Unit {0}) (λ t. IsClosed t)) }
        ensures memory { IfErr result (λ w. w ≡ Memory) }
    {
        let (premises, conclusion) = self.parts.split();
        if !statement::is_solved(premises, conclusion) {
            return Ok(None);
        }
        let thm = self.discharged(alloc)?;
        let proved = generalised(alloc, &thm, premises, conclusion);
        drop(thm);
        let proved = proved?;
        let _kept = proved.derivation();
        Ok(Some(proved))
    }
}
