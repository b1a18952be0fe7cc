//! Types and terms of the logic, implications, and lists of hypotheses.
//!
//! A [`Typ`] is a constructor with [`Types`] as its arguments, or a type variable. A [`Term`] is a tree: an abstraction, or
//! a [`Head`] with [`Terms`] as its arguments. A variable has a [`Name`](iv_text::Name); bound variables are indices.
//! Contracts compare terms as trees, since children are held by [`Shared`](iv_shared::Shared).
//!
//! Tests take no memory. All four are [`Copied`](iv_text::Copied): a copy shares their parts; [`changed_typ`] and
//! [`changed_term`] make types and terms of which a part may be new, and [`both`] puts the outcomes of two calls together.
#![tactic(auto)]

pub mod changed_term;
pub mod changed_typ;
pub mod copied;
pub mod free;
pub mod hyps;
pub mod implication;
pub mod outcomes;
pub mod term;
pub mod typ;

pub use outcomes::both;
pub use term::{Head, Term, Terms};
pub use typ::{Typ, Types};
