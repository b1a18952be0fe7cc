//! Readers of methods and of the patterns in them, with the limit on levels.
//!
//! Each reader is a function of its own name in `specs/`, which looks at the next tokens alone. A part of a method comes with
//! its levels, and with the place of the first fact in it that is too deep. The laws say that [`a_method`](methods::a_method),
//! the reader of a whole method, finds whatever a method reads. The readers of commands stand on it.
#![tactic(auto)]

pub mod laws;
pub mod levelled;
pub mod methods;
pub mod patterns;
