//! The laws of abstraction over a free variable.
ghost use Rattle.iv_laws.specs.Abstracting.{AbstractAt, AbstractIsWithout, AbstractIsConstant, RaisePassesAbstract, InstPassesAbstract, RetypePassesAbstract, BindPassesHapp};

/// A function at a variable that isn't in it, abstracted over the variable, is the function again.
pub fn abstraction_undoes_application()
    ensures { AbstractAt }
{}

/// A variable isn't free in what is abstracted over it; an abstraction over a variable that isn't there is a constant function.
pub fn what_is_abstracted_over_is_gone()
    ensures gone { AbstractIsWithout }
    ensures constant { AbstractIsConstant }
{}

/// Raising passes abstraction, and so do values that are put for other variables, each at its own type, where the abstracted one is in
/// none of them, and types that are put in a term, where they make no other variable of its name equal to it. Binding passes values
/// at arguments.
pub fn abstraction_is_passed()
    ensures raise { RaisePassesAbstract }
    ensures values { InstPassesAbstract }
    ensures happ { BindPassesHapp }
    ensures types { RetypePassesAbstract }
{}
