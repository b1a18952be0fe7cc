//! The commands of a document, and what is built of each.
//!
//! [`commands::commands`] cuts a document into its commands and says of each what is built of it, as a [`commands::Form`]: the header, a text, a
//! lemma by the names in its proposition ([`Parts`]), `by assumption`, `oops`, `end`, or the place where nothing goes on. Its
//! contract says that these are the commands of the document (`IsCommands`), and that there are no others. [`reading`] reads a
//! quoted proposition, part by part.
//!
//! The machine of `iv_run` stands on it.
#![tactic(auto)]

pub mod commands;
pub mod letters;
pub mod parts;
pub mod reading;

pub use parts::Parts;
