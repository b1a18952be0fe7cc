//! Readers of the forms: tokens that a form reads, as the command that it reads.
//!
//! Each reader is a function of its own name in `specs/`, which looks at the next tokens alone; [`form`] is the reader of
//! any command. The laws say that it finds what the forms say, whichever way they say it, so there is one reading; or the
//! first part with more than 400 levels. `iv_outer` stands on it.
#![tactic(auto)]

pub mod forms;
pub mod laws;

pub use forms::form;
