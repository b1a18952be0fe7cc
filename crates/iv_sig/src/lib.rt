//! The signature of a theory: its types, constants, notations, judgment and axioms.
//!
//! [`Sig`] grows by declarations alone. Each is refused exactly where its condition says, by a [`SigError`], and a refused
//! one leaves the signature as it was. Contracts see a record of lists in order of declaration; look-ups go by a
//! [`Table`], and take no memory. [`Notations`] say by which [`Fixity`] a constant is written, [`Axioms`] which
//! propositions hold at first. What holds of every signature is in the contract of [`Sig::is_kept`]. The kernel takes its
//! axioms from here.
#![tactic(auto)]

pub mod conditions;
mod declare;
pub mod error;
pub mod fixity;
pub mod laws;
pub mod notations;
mod pure;
pub mod sig;
mod symbols;
pub mod table;

pub use error::SigError;
pub use fixity::Fixity;
pub use notations::Notations;
pub use sig::{Axioms, Sig};
pub use table::Table;
