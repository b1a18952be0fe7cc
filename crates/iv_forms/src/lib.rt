//! The forms of the outer syntax: typed commands, and what tokens are read as which.
#![tactic(auto)]

pub mod command;
pub mod fact;
pub mod judge;
pub mod lexeme;
pub mod method;
pub mod prop;

pub use command::{Axiom, Body, Constant, Equation, Fixity, NoteGroup, Obtained, Parts, Statement};
pub use fact::{Att, Fact, Mark, Place, Sel, TermPlace, Where};
pub use iv_list::Items;
pub use lexeme::Lexeme;
pub use method::{Arg, Case, Cut, MethodText, Pattern, Section, Subject};
pub use prop::{Claim, Group, Label, Prop, VarGroup};
