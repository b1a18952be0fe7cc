//! Names in scope, each with its type where one is known, and texts that are bound to terms.
//!
//! [`ScopeNames`] holds a [`ScopeName`] for each name, and [`Bindings`] a [`Binding`] for each text, both in the order of
//! entry. They are lists of [`iv_list`], and contracts see them as such; a copy of an entry
//! ([`ScopeName::copy`](scope::ScopeName::copy), [`Binding::copy`](scope::Binding::copy)) is equal to it and shares its
//! parts. What a term is read and typed in, and what a theorem is closed over, will be given by them; nothing stands on
//! them yet.
#![tactic(auto)]

pub mod scope;

pub use scope::{Binding, Bindings, ScopeName, ScopeNames};
