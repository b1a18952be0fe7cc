//! The outer syntax: the pieces of a document, and the command that each is read as.
//!
//! [`split`] cuts tokens into [`Piece`]s, and [`command`] reads one as a [`Command`]. Its [`Reading`] is what a form says, or
//! exactly the place where no form goes on. There is one such command for each piece. [`class_of`] is the class of a token;
//! [`lexeme_of`] puts it beside the token, and [`lexemes`] beside each of many. The program stands on it.
#![tactic(auto)]

pub mod classify;
pub mod laws;
pub mod opened;
pub mod pieces;
pub mod reader;
pub mod reading;
pub mod refusal;
pub mod words;

pub use classify::{class_of, lexeme_of, lexemes};
pub use pieces::{Piece, split};
pub use reader::command;
pub use reading::{Command, Reading};
