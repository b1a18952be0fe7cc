//! Readers of parts of commands: what declarations say, statements, notes, and what is obtained.
//!
//! Each reader is a function of its own name in `specs/`, which looks at the next tokens alone. That they find what the forms
//! say is part of the laws of `iv_read`, whose reader of any command stands on them and on that of methods.
#![tactic(auto)]

pub mod commands;
pub mod declarations;
