//! The laws of search trees, each as the contract of a function that does nothing.
ghost use Rattle.iv_seq.specs.Laws.{ReadsLeaves, ReadsLarge, ReadsWork, ReadsAllWork, ReadsBind, ReadsOrElse, ReadsTake, ReadsRest, ReadsAll, RestCosts, PullsTree, BindsJoined, BindsBound, BindsOne, BindsToItself, LeavesJoined, LeavesBound, GoesFurther, PullsFurther};

/// A search tree and its moments are two readings of one search: they have the same leaves and the same
/// work before each, and trees are bound, tried, cut and left behind as their moments are.
pub fn trees_are_read_as_moments<A, B>()
    ensures leaves { ReadsLeaves A }
    ensures large { ReadsLarge A }
    ensures work { ReadsWork A }
    ensures all_work { ReadsAllWork A }
    ensures bind { ReadsBind A B }
    ensures or_else { ReadsOrElse A }
    ensures take { ReadsTake A }
    ensures rest { ReadsRest A }
    ensures all { ReadsAll A }
{}

/// Searches that are bound nest: over what is joined, over another bind, and at one leaf. Their leaves are
/// those of what each leaf leads to.
pub fn searches_nest<A, B, C>()
    ensures joined { BindsJoined A B }
    ensures bound { BindsBound A B C }
    ensures one { BindsOne A B }
    ensures itself { BindsToItself A }
    ensures leaves_joined { LeavesJoined A }
    ensures leaves_bound { LeavesBound A B }
{}

/// A search of which a part was done goes on as if it were all done at once.
pub fn parts_of_a_pull_are_a_pull<A>()
    ensures further { GoesFurther A }
    ensures pulled { PullsFurther A }
{}

/// After the first leaf, a leaf costs what it cost before, less the work before the first.
pub fn rest_costs_the_difference<A>()
    ensures { RestCosts A }
{}

/// A pull on a sequence that stands for a tree gives its first leaf and leaves the rest, at no more cost
/// than the work before that leaf; after an error the leaves are the same and none of them is dearer.
pub fn pull_gives_the_first_leaf<A>()
    ensures { PullsTree A }
{}
