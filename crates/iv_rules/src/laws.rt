//! The laws of derivations, each as the contract of a function that does nothing.
ghost use Rattle.iv_rules.specs.Laws.{ConcludesSequents, ConcludesOne, ImpIsProp, EqIsProp, AllIsProp, SameIsEqual};

/// What a derivation concludes is a sequent, and there is one at most.
pub fn conclusions_are_sequents()
    ensures sequent { ConcludesSequents }
    ensures one { ConcludesOne }
{}

/// An implication is a proposition exactly where both its parts are, an equation where both sides are terms of its type,
/// and `!!` where its argument is a predicate.
pub fn parts_of_propositions()
    ensures imp { ImpIsProp }
    ensures eq { EqIsProp }
    ensures all { AllIsProp }
{}

/// Hypotheses are told apart as trees.
pub fn hypotheses_are_told_apart()
    ensures { SameIsEqual }
{}
