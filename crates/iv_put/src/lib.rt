//! Values put for variables: types for type variables, and closed terms for the variables of a term.
//!
//! [`Subst`] is a substitution: a map of types and a finite map from schematic variables to terms without loose
//! indices. Applying it puts the types first, and then all terms at once, by hereditary substitution; [`retype`] puts types
//! alone. Where each value has its variable's type, a term becomes a term, of its type with the types put in, and a
//! composition is one substitution after the other: that is in [`laws`], with what putting passes, for any function of
//! variables. Lemmas for whoever proves above this crate stand in `proofs/Theory.antt`.
#![tactic(auto)]

pub mod apply;
mod can;
mod compose;
pub mod laws;
pub mod retyping;
pub mod substitution;

pub use retyping::retype;
pub use substitution::Subst;
