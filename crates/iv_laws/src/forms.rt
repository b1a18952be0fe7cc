//! The laws of hereditary Harrop form.
ghost use Rattle.iv_laws.specs.Forms.{HhfIsReached, HhfOfParts, RaisePassesHhf, RetypePassesHhf, OutwardsKeepsHhf, EtaPassesHhf};

/// Steps from `A ==> !!x. B` to `!!x. A ==> B`, anywhere in a term and as often as it takes, lead from a term to its form.
pub fn steps_lead_to_the_form()
    ensures { HhfIsReached }
{}

/// The form of `A ==> B` is that of the implication between the forms of `A` and `B`.
pub fn the_form_is_that_of_the_parts()
    ensures { HhfOfParts }
{}

/// Raising passes the form, and so do types that are put in a term, where they make no other constant `==>` or `!!` at its
/// type.
pub fn the_form_is_passed()
    ensures raise { RaisePassesHhf }
    ensures types { RetypePassesHhf }
{}

/// A step of `!!` out of an implication, at the term itself, leaves the form as it is, where what `!!` stands before is no
/// implication (a predicate is none); and the form passes contraction, where what comes out is no implication.
pub fn a_step_leaves_the_form()
    ensures outwards { OutwardsKeepsHhf }
    ensures under { EtaPassesHhf }
{}
