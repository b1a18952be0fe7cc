//! Each rule as a step, as the contract of a function that does nothing: where the rule's premises are concluded and its
//! condition holds, its derivation concludes its sequent.
ghost use Rattle.iv_rules.specs.Steps.{AxiomShows, AssumeShows, ImpIntrShows, ImpElimShows, AllIntrShows, AllElimShows, ReflShows, SymShows, TransShows, CombShows, AbsShows, EqIntrShows, EqElimShows, ConvShows, InstShows, InstancedIsProp, InstancedAreProps};

use iv_hsub::laws::{abstraction_is_undone, putting_gives_terms, substitution_gives_terms};

/// Axioms, assumptions, implications, and propositions of one form.
pub fn propositions_are_shown()
    ensures axiom { AxiomShows }
    ensures assume { AssumeShows }
    ensures imp_intr { ImpIntrShows }
    ensures imp_elim { ImpElimShows }
    ensures conv { ConvShows }
{}

/// Quantified propositions, and what they say of one value.
pub fn quantified_are_shown()
    ensures all_intr { AllIntrShows }
    ensures all_elim { AllElimShows }
{
    substitution_gives_terms();
    abstraction_is_undone();
}

/// Equality is an equivalence, and equal propositions follow from each other.
pub fn equations_are_shown()
    ensures refl { ReflShows }
    ensures sym { SymShows }
    ensures trans { TransShows }
    ensures eq_intr { EqIntrShows }
    ensures eq_elim { EqElimShows }
{}

/// Functions and arguments that are equal give what is equal, and so do abstractions.
pub fn congruences_are_shown()
    ensures comb { CombShows }
    ensures abs { AbsShows }
{
    substitution_gives_terms();
    abstraction_is_undone();
}

/// Instances; propositions stay propositions under one whose values are typed.
pub fn instances_are_shown()
    ensures inst { InstShows }
    ensures prop { InstancedIsProp }
    ensures hyps { InstancedAreProps }
{
    putting_gives_terms();
}
