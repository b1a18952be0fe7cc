//! The laws of lists of hypotheses: which terms are in them.
ghost use Rattle.iv_laws.specs.Among.{AmongItself, AmongThoseAmong, InUnion, InWithout, UnionHasFirst, UnionHasSecond, UnionIsLeast, WithoutIsLess, WithoutIsDischarged, UnionOfNothing, InstancesAreAmong};

/// A list is among itself, and among those that what it is among is among.
pub fn among_is_an_order()
    ensures itself { AmongItself }
    ensures those { AmongThoseAmong }
{}

/// A union has what either list has, and is among each list that both are among; of a list without repeats and nothing it
/// is that list.
pub fn unions_have_both()
    ensures has { InUnion }
    ensures first { UnionHasFirst }
    ensures second { UnionHasSecond }
    ensures least { UnionIsLeast }
    ensures nothing { UnionOfNothing }
{}

/// A list with a term taken out has all others, and is among what has them.
pub fn a_term_taken_out()
    ensures has { InWithout }
    ensures less { WithoutIsLess }
    ensures discharged { WithoutIsDischarged }
{}

/// Instances of hypotheses that are among others are among the instances of those.
pub fn instances_stay_among()
    ensures { InstancesAreAmong }
{}
