//! Laws of what is proved, as the contracts of functions that do nothing.
ghost use Rattle.std.specs.Prelude.{List};
ghost use Rattle.iv_statement.specs.declared.commands.Command.{Command};
ghost use Rattle.iv_run.specs.Laws.{SolvedIsDerivable};
ghost use Rattle.iv_run.specs.Run.{AllDerivable, theorems_of};

use iv_rules::steps::{instances_are_shown, propositions_are_shown};

/// A statement with its conclusion among its premises follows, by the rules of the logic, from no hypothesis and no axiom.
pub fn solved_statements_are_derivable()
    ensures { SolvedIsDerivable }
{
    propositions_are_shown();
    instances_are_shown();
}

/// Each theorem that commands prove follows, by the rules of the logic, from no hypothesis and no axiom.
pub fn theorems_are_derivable()
    ensures { (cs : List Command) → AllDerivable (theorems_of cs) }
{
    solved_statements_are_derivable();
}
