//! Theorems, and the rules that make them.
//!
//! A [`Thm`] is a sequent, of hypotheses ([`Thm::hyps`]) and a proposition that follows from them ([`Thm::prop`]), with a
//! derivation that concludes it ([`Thm::derivation`]). Its fields are private and each rule is one function, so nothing
//! outside this crate makes a theorem but by a rule, and [`Thm::copy`] gives an equal one. The rules are [`Thm::axiom`],
//! [`Thm::assume`], [`Thm::imp_intr`], [`Thm::imp_elim`], [`Thm::all_intr`], [`Thm::all_elim`], [`Thm::refl`],
//! [`Thm::sym`], [`Thm::trans`], [`Thm::comb`], [`Thm::abs`], [`Thm::eq_intr`], [`Thm::eq_elim`], [`Thm::conv`] and
//! [`Thm::inst`]. Each rule's condition is a `requires`, with a test of the name `can_` and the rule's in [`conditions`].
//! [`Thm::fixed_hyps`] says whether no hypothesis has a schematic variable, and [`Thm::one_typed`] whether those of one
//! name have one type.
//!
//! A [`Goal`] is a theorem read as subgoals that are left and a claim. It begins as the claim alone ([`Goal::init`], where
//! [`Goal::can_init`]) or is read off a theorem ([`Goal::made`], where [`Goal::can_make`]), and its parts are
//! [`Goal::count`], [`Goal::subgoal`], [`Goal::claim`] and [`Goal::thm`]. [`Goal::rotate`] moves a subgoal to another
//! place, [`Goal::copy`] gives an equal goal, and [`Goal::finish`] the theorem of a goal without subgoals.
//!
//! A [`NamedThm`] is a theorem with its name, where it has one, and [`NamedThm::copy`] gives an equal one. [`Theorems`]
//! are a list of them, in order. Claims are proved by these rules, and the finished theorems of a document are such a
//! list.
#![tactic(auto)]

pub mod conditions;
mod derivations;
pub mod goal;
mod rotate;
pub mod schematics;
pub mod theorems;
pub mod thm;

pub use goal::Goal;
pub use theorems::{NamedThm, Theorems};
pub use thm::Thm;
