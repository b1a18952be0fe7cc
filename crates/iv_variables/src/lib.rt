//! The variables of types and terms: which stand there, their greatest number, and raising them.
//!
//! A [`Variable`] is a type variable, fixed or schematic, or a free or schematic variable with its type. Those of a term are
//! a list, one for each place, in the order of reading, and everything else is said of that list. Two walks go over the
//! places: [`any`](walk::any) asks a [`Test`](walk::Test) until one passes, and [`each`](walk::each) shows them all to a
//! [`Visitor`](walk::Visitor).
#![tactic(auto)]

pub mod found;
pub mod kind;
pub mod laws;
pub mod number;
pub mod raising;
pub mod stands;
pub mod variable;
pub mod walk;

pub use found::Variables;
pub use kind::Kind;
pub use number::{next_number, next_number_in_terms};
pub use raising::{raise, raise_all, raise_typ};
pub use stands::{any_has_free, any_has_kind, any_has_named, has, has_free, has_kind, has_named};
pub use variable::Variable;
pub use walk::{Test, Visitor};
