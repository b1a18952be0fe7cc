//! The table of the outer syntax, and its recogniser.
//!
//! A [`Class`] is what the forms ask of a token, and a [`Sort`] is a set of them. [`forms`] has the rows of each
//! [`Part`], which are made of [`Symbol`]s: a row is empty or begins with a token, no two rows of a part begin alike,
//! and where a part may end, nothing that may follow it begins one of its rows. So one token decides each step, and the
//! [`Verdict`] of [`read`] says exactly whether some classes are read, are cut, or which of them no form can go on
//! with. The forms and their readers stand on the classes, and `iv_outer` on the verdict.
#![tactic(auto)]

pub mod class;
pub mod laws;
pub mod part;
pub mod reading;
pub mod table;

pub use class::{Class, Sort};
pub use part::{Part, Symbol};
pub use reading::{Verdict, read};
pub use table::forms;
