//! Derivations by the rules of the logic, and what they conclude.
//!
//! A [`Derivation`] is a tree with one of fifteen rules at each node. What it concludes is a definition over the tree,
//! `Concludes` in `specs/Rules.antt`: a list of hypotheses and a proposition that follows from them. The rule of
//! instantiation has an [`Instance`]: [`FixedTypes`] and [`SchematicTypes`], and [`FreeTerms`] and [`SchematicTerms`], which
//! are [`VarTerms`].
//!
//! That a conclusion is a sequent, and the only one, is in [`laws`]; each rule as a step from what is concluded is in
//! [`steps`]. The kernel makes derivations by these steps alone.
#![tactic(auto)]

pub mod derivation;
pub mod instance;
pub mod laws;
pub mod steps;

pub use derivation::Derivation;
pub use instance::{FixedTypes, FreeTerms, Instance, SchematicTerms, SchematicTypes, VarTerms};
