//! The laws of a substitution as an instance, each as the contract of a function that does nothing.
ghost use Rattle.iv_instance.specs.Laws.{InstanceIsApplied, InstanceIsTyped, InstanceIsApart, FixedAreFresh, FixedStay};

use iv_laws::hyps::unions_have_both;
use iv_put::laws::{types_put_are_those_of_variables, values_put_are_those_of_variables};

/// Where a substitution can be applied to a term, its instance leaves what it leaves.
pub fn instances_are_applications()
    ensures { InstanceIsApplied }
{
    values_put_are_those_of_variables();
}

/// A substitution's instance meets the rule's conditions: its values have their keys' types, and its keys differ.
pub fn instances_can_be_put()
    ensures typed { InstanceIsTyped }
    ensures apart { InstanceIsApart }
{}

/// Nothing of hypotheses without schematic variables is replaced, so they stay.
pub fn fixed_hypotheses_stay()
    ensures fresh { FixedAreFresh }
    ensures stay { FixedStay }
{
    types_put_are_those_of_variables();
    values_put_are_those_of_variables();
    unions_have_both();
}
