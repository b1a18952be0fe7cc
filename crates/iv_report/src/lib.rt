//! Lines, columns and the parts of report lines.
//!
//! A [`Cursor`] walks a document of at most [`LIMIT`] bytes forward and says exactly the line and the column of a place;
//! columns are those that a terminal shows. The writers of [`text`] append numbers, names and places to a line, and
//! change nothing that stands in front. The report of the program stands on it.
#![tactic(auto)]

pub mod places;
pub mod text;
pub mod widths;

pub use places::{Cursor, LIMIT};
