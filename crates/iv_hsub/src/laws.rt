//! The laws of terms that compute, each as the contract of a function that does nothing.
ghost use Rattle.iv_hsub.specs.Laws.{HsubKeepsTypes, HappKeepsTypes, EtaKeepsTypes, RaiseKeepsTypes, LooseIsBounded, BoundsCanGrow, BoundsCanShrink, ClosedStays, PutsCommute, HsubsCommute, AbstractKeepsTypes, AbstractIsUndone, ImpIsSeen, AllIsSeen, HhfKeepsTypes, HhfHasForm, HhfKeepsForm, HhfIsOnce, RetypeKeepsTypes, InstKeepsTypes};

/// Hereditary substitution gives terms: well typed, of the body's type, beta-normal and eta-short. So does what
/// it is made of: a value at arguments, an abstraction that is contracted, and a term under one more binder.
pub fn substitution_gives_terms()
    ensures hsub { HsubKeepsTypes }
    ensures happ { HappKeepsTypes }
    ensures eta { EtaKeepsTypes }
    ensures raise { RaiseKeepsTypes }
{}

/// A term has no loose index beyond its bounds, and bounds that no index reaches count for nothing: a term without
/// loose indices is one under any bounds, and stays the same under more binders.
pub fn bounds_beyond_loose_indices_count_for_nothing()
    ensures loose { LooseIsBounded }
    ensures grow { BoundsCanGrow }
    ensures shrink { BoundsCanShrink }
    ensures closed { ClosedStays }
{}

/// Two substitutions commute.
pub fn substitutions_commute()
    ensures anywhere { PutsCommute }
    ensures outermost { HsubsCommute }
{}

/// An abstraction over a variable is a function of that variable's type; at the variable it is the term again.
pub fn abstraction_is_undone()
    ensures typed { AbstractKeepsTypes }
    ensures undone { AbstractIsUndone }
{}

/// What passes the tests of `==>` and of `!!` is that constant at its type, and no other constant of its name.
pub fn tests_see_types()
    ensures imp { ImpIsSeen }
    ensures all { AllIsSeen }
{}

/// `hhf` of a term is a term of its type, in which no `!!` stands behind `==>`; it changes no such term, so
/// `hhf` of `hhf` is `hhf`.
pub fn hhf_is_a_normal_form()
    ensures typed { HhfKeepsTypes }
    ensures form { HhfHasForm }
    ensures kept { HhfKeepsForm }
    ensures once { HhfIsOnce }
{}

/// Types put in a term leave a term, of its type with types put in; values that fit their variables leave a term of
/// the same type. Both hold of any function of variables.
pub fn putting_gives_terms()
    ensures types { RetypeKeepsTypes }
    ensures values { InstKeepsTypes }
{}
