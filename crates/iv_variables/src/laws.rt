//! The laws of variables, each as the contract of a function that does nothing.
ghost use Rattle.iv_variables.specs.Laws.{RaisesTypes, RaisesTerms, RaisesLists, RaisesByNone, RaisesTwice, RaisesNone, RaisesNoType, StandsRaised, KindsRaised, NumberBounds, NumberReached, NumberOfTwo, NumberRaised, NoneRaised, RaisedApart, FirstsStand, FirstsOfTwo, KindStands, FreeStands, FreeStandsInOne};

/// What is raised has the same variables in the same places, each raised.
pub fn raising_keeps_places()
    ensures types { RaisesTypes }
    ensures terms { RaisesTerms }
    ensures lists { RaisesLists }
{}

/// Raising by 0 changes nothing, and raising twice raises by the sum.
pub fn raising_adds_up()
    ensures none { RaisesByNone }
    ensures twice { RaisesTwice }
{}

/// What has no schematic variable and no schematic type variable is not changed by raising.
pub fn raising_leaves_what_is_fixed()
    ensures terms { RaisesNone }
    ensures types { RaisesNoType }
{}

/// A raised variable stands exactly where the variable stood, and the variables of a kind keep their order.
pub fn raised_variables_stand()
    ensures stands { StandsRaised }
    ensures kinds { KindsRaised }
{}

/// The next number is above the number of each schematic variable that stands, and one more than one of them; that of two parts
/// is the greater one of theirs.
pub fn next_number_bounds()
    ensures bounds { NumberBounds }
    ensures reached { NumberReached }
    ensures two { NumberOfTwo }
{}

/// Raising by r raises the next number by r, where a schematic variable stands.
pub fn next_number_is_raised()
    ensures some { NumberRaised }
    ensures none { NoneRaised }
{}

/// What is raised by r has no schematic variable with a number below r.
pub fn raised_stands_apart()
    ensures apart { RaisedApart }
{}

/// Variables once each are those that stand; those of two parts are those of the first, and then the new ones of the second.
pub fn firsts_are_what_stands()
    ensures stands { FirstsStand }
    ensures two { FirstsOfTwo }
{}

/// A variable stands among those of a kind exactly where it is of the kind and stands.
pub fn kinds_stand()
    ensures stands { KindStands }
{}

/// A free variable stands in a term, and in one of some terms, exactly where `has_free` and `any_has_free` of terms say so.
pub fn frees_stand()
    ensures terms { FreeStands }
    ensures lists { FreeStandsInOne }
{}
