//! Readers of facts, attributes, labels, propositions and names with types, and what all readers of forms are made of.
//!
//! A reader looks at the next tokens alone. Each is a function of its own name in `specs/`, which finds a value and the
//! tokens behind it, or no form, or a part with more than 400 levels and where that begins; a [`Stop`] says which of
//! the last two, or that memory ran out. The laws say that it finds whatever its form reads. The readers of methods and
//! of commands stand on it.
#![tactic(auto)]

pub mod facts;
pub mod laws;
pub mod props;
pub mod stop;
pub mod tokens;

pub use stop::Stop;
