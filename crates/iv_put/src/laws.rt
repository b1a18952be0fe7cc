//! The laws of substitutions, each as the contract of a function that does nothing.
ghost use Rattle.iv_put.specs.Laws.{MapsAreFunctions, ApplyKeepsTypes, NothingStays, ComposedIsBoth, ComposedCanApply, NextCanApply, ComposedIsClosed};
ghost use Rattle.iv_put.specs.Putting.{FunctionsPut, TypesAgree, RetypesAgree, TypesStay, RetypeStays, TypesTwice, RetypeTwice, RetypePassesRaise, RetypePassesEta, RetypePassesHapp, RetypePassesPut, RetypePassesHsub, InstsAgree, InstStays, InstPassesRaise, InstPassesEta, InstPassesHapp, InstPassesPut, InstPassesHsub, InstTwice};

/// A finite map of types is put as its function is, and a substitution that can be applied leaves a term, of its type with
/// types put in.
pub fn putting_gives_terms()
    ensures maps { MapsAreFunctions }
    ensures both { ApplyKeepsTypes }
{}

/// The empty substitution changes nothing.
pub fn nothing_put_changes_nothing()
    ensures { NothingStays }
{}

/// Where each step's condition holds, a composition is one substitution after the other. The conditions hold where the
/// second's values fit what the first leaves in the term, and also what is gone again after the first.
pub fn composition_is_one_after_the_other()
    ensures both { ComposedIsBoth }
    ensures can { ComposedCanApply }
    ensures next { NextCanApply }
    ensures closed { ComposedIsClosed }
{}

/// What is put for the type variables that stand in a type or in a term decides the result: functions that agree on them put
/// the same, and where each is put for itself all stays. A function of schematic variables is one of all.
pub fn types_put_are_those_of_variables()
    ensures functions { FunctionsPut }
    ensures types { TypesAgree }
    ensures terms { RetypesAgree }
    ensures types_stay { TypesStay }
    ensures terms_stay { RetypeStays }
{}

/// Types that are put twice are put once, each under what is put second.
pub fn putting_types_twice_is_once()
    ensures types { TypesTwice }
    ensures terms { RetypeTwice }
{}

/// Types put in a term pass raising, contraction, values at arguments, and hereditary substitution.
pub fn putting_types_passes()
    ensures raise { RetypePassesRaise }
    ensures eta { RetypePassesEta }
    ensures happ { RetypePassesHapp }
    ensures put { RetypePassesPut }
    ensures hsub { RetypePassesHsub }
{}

/// What is put for the variables that stand in a term decides the result: functions that agree on them put the same, and
/// where no value is put all stays.
pub fn values_put_are_those_of_variables()
    ensures agree { InstsAgree }
    ensures stay { InstStays }
{}

/// Values that fit the variables of a term, and have no loose indices, pass raising, contraction, values at arguments, and
/// hereditary substitution.
pub fn putting_values_passes()
    ensures raise { InstPassesRaise }
    ensures eta { InstPassesEta }
    ensures happ { InstPassesHapp }
    ensures put { InstPassesPut }
    ensures hsub { InstPassesHsub }
{}

/// Values that are put twice are put once: the first one's under the second, and the second's where the first has none.
pub fn putting_values_twice_is_once()
    ensures { InstTwice }
{}
