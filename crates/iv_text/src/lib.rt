//! Texts, names, places in a document, the symbols of the language, and what a call may lack.
//!
//! A [`Name`] is a [`Text`] with a number. A call that makes a value answers [`Mem`]: just the value that its clause names,
//! or the [`Want`] of memory. What is [`Copied`] shares its parts: [`new_or_copy`], [`new_or_shared`] and [`copy_of`] are for
//! values that may be new. Every token, command and refusal carries a [`Pos`]. Lines and columns are made of it only for a
//! reader.
//!
//! A symbol has up to three spellings: the one that is printed, its name as `\<name>`, and one character.
//! [`symbol`] gives the character of a name and [`spelling`] what is printed for a character, each exactly as the one
//! table in `specs` has it, in which no two symbols share either.
//!
//! Terms, tokens, readers and the report stand on this crate.
#![tactic(auto)]

pub mod copied;
pub mod law;
pub mod name;
pub mod symbols;
pub mod text;
pub mod want;

pub use copied::{Copied, copy_of, new_or_copy, new_or_shared};
pub use name::Name;
pub use symbols::{spelling, symbol};
pub use text::Text;
pub use want::{Mem, Want};

/// A place in a document: how many bytes stand before it.
#[derive(Clone, Copy, Debug, PartialEq, Eq, PartialOrd, Ord)]
pub struct Pos(pub u32);
