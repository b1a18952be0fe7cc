//! The laws of values at arguments, of contraction, and of the occurrence of indices.
ghost use Rattle.iv_laws.specs.Spines.{HappOfNothing, HappOfSpine, HappAppends, HappOfEta, EtaIsUndone, EtaOfExpand, OccursInRaised, NewIsNowhere, OccursInEta, BeyondIsNowhere, NowhereIsBeyond, ArgsMakeFunctions};

/// A value at no arguments is itself, a head with arguments takes more of them at the end, a value takes arguments in two
/// parts as all at once, and what takes arguments is of the functions from their types.
pub fn arguments_are_taken_in_order()
    ensures nothing { HappOfNothing }
    ensures spine { HappOfSpine }
    ensures append { HappAppends }
    ensures functions { ArgsMakeFunctions }
{}

/// An abstraction at arguments, contracted or not, puts the first of them for its variable; a function is the abstraction
/// over itself at a new variable.
pub fn contraction_changes_no_function()
    ensures beta { HappOfEta }
    ensures undone { EtaIsUndone }
    ensures expand { EtaOfExpand }
{}

/// An index stands in a raised term, in a contracted abstraction and beyond the loose indices as in the term that it was.
pub fn occurrence_of_indices()
    ensures raised { OccursInRaised }
    ensures new { NewIsNowhere }
    ensures eta { OccursInEta }
    ensures beyond { BeyondIsNowhere }
    ensures nowhere { NowhereIsBeyond }
{}
