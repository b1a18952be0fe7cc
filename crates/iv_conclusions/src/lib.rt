//! What the rules of the logic conclude, and what they ask, as the kernel computes it.
//!
//! - Equations and quantified propositions: [`terms`] builds them and takes them apart, [`conditions`] tests what a rule asks of
//!   its premises, [`conclusions`] builds what a rule concludes. [`eigenvariable`] tells whether a variable may be bound.
//! - Instances: an [`Instance`](iv_rules::Instance) puts types for type variables, fixed and schematic, and terms for variables,
//!   which it finds by name and by the type after that. Terms are put all at once, by hereditary substitution: [`instanced`] in
//!   a term, [`instanced_hyps`] in hypotheses. Where [`are_values_typed`] and [`is_fresh_for`] hold, the rule of instantiation
//!   may use an instance. The laws are in [`laws`], as [`are_keys_apart`].
//!
//! Tests take no memory, but where two forms are compared. Each contract is in the words of the rules' definition, and the
//! kernel's rules stand on this crate.
#![tactic(auto)]

pub mod conclusions;
pub mod conditions;
pub mod eigenvariable;
mod fresh;
pub mod laws;
mod putting;
pub mod terms;
mod types;
mod values;

pub use fresh::is_fresh_for;
pub use laws::are_keys_apart;
pub use putting::{instanced, instanced_hyps};
pub use values::are_values_typed;
