//! A shared owner that contracts see as the value it owns.
//!
//! Terms, types and derivations hold their children by [`Shared`]: a copy is one more owner and takes
//! no memory, and `≡` in a contract compares what is owned and never an address. A type may hold itself
//! through a `Shared`: `specs/formers` has the laws of that.
#![tactic(auto)]

pub mod shared;

pub use shared::Shared;
