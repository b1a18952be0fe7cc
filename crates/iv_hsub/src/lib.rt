//! Terms that compute: the part of the terms' layer above the values of `iv_term`.
//!
//! - Types: [`type_of`], [`has_type`], [`is_term`], [`is_prop`], and those of `!!` and `==` in [`constants`].
//! - Indices and binders: [`loose`], [`raise`], [`contracts`], [`eta`], [`abstract_over`].
//! - Hereditary substitution: [`hsub`], and [`happ`] for a value at arguments.
//! - Hereditary Harrop form, with each `!!` in front of `==>`: [`hhf`].
//!
//! Tests take no memory. Each call is an equation with a definition of `specs/`, and so is what it may lack; what holds of
//! the definitions is in [`laws`]. Putting types and terms for variables, all at once, is defined here too, for the rules and
//! for substitutions; the calls stand above. Signatures, substitutions, and the rules stand on this crate.
#![tactic(auto)]

pub mod abstraction;
pub mod constants;
pub mod contraction;
pub mod harrop;
pub mod laws;
pub mod looseness;
pub mod raising;
pub mod substitution;
pub mod typing;

pub use abstraction::abstract_over;
pub use contraction::{contracts, eta};
pub use harrop::hhf;
pub use looseness::loose;
pub use raising::raise;
pub use substitution::{happ, hsub};
pub use typing::{has_type, is_prop, is_term, type_of};
