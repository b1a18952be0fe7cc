//! The laws of unifiers, each as the contract of a function that does nothing.
ghost use Rattle.iv_unify.specs.Scope.{LeadingApplies, LeadingIsOver, LeadingKeepsTypes, LeadingComposes, LeadingIsBoth, NothingLeads};
ghost use Rattle.iv_unify.specs.Laws.{LeavesUnify, UnifiersUnifyTypes, AssignedIsAbsent, TurnsAreEnough};
ghost use Rattle.iv_unify.specs.Names.{LeavesKeepNames};

/// Each leaf of the tree of unifiers makes both sides of every pair equal, and their types. The pairs are terms in which each schematic
/// variable has a number below the first new one, and variables of one name have one type. A leaf leads from this scope to another:
/// so it can be applied to every term over the scope, and gives a term of its type with types put in.
pub fn leaves_are_unifiers()
    ensures terms { LeavesUnify }
    ensures types { UnifiersUnifyTypes }
{}

/// The variables that a leaf has values for, and those of its values, stand in the pairs or have the first new number or a greater one.
pub fn leaves_keep_names()
    ensures { LeavesKeepNames }
{}

/// Simplification ends: each turn leaves less, so as many turns as the size of the pairs are enough.
pub fn turns_are_enough()
    ensures { TurnsAreEnough }
{}

/// A variable that is assigned at no cost stands in no value of the assignment.
pub fn assigned_variables_are_gone()
    ensures { AssignedIsAbsent }
{}

/// A substitution that leads from one scope to another can be applied to terms over the first. It gives terms over the second, of their
/// types with types put in.
pub fn leading_substitutions_apply()
    ensures can { LeadingApplies }
    ensures over { LeadingIsOver }
    ensures types { LeadingKeepsTypes }
{}

/// Two of them that lead on are one that leads from the first scope to the last, and is one after the other. The empty substitution
/// leads from each scope to itself.
pub fn leading_substitutions_compose()
    ensures composed { LeadingComposes }
    ensures both { LeadingIsBoth }
    ensures nothing { NothingLeads }
{}
