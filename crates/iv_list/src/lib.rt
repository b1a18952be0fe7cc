//! Lists that grow at their end.
//!
//! [`Items`] holds values of one type in the order of entry, and contracts see the list of them. A list begins empty
//! ([`Items::new`]), and is read as a slice ([`Items::as_slice`], [`Items::len`]). One item ([`Items::push`]) or those of
//! another list ([`Items::append`]) come to its end, and the last one is taken away ([`Items::pop`]); where memory runs
//! out, the list is as before. [`Items::copy`] makes an equal list, of items that are [`Copied`](iv_text::Copied).
//!
//! The forms of the outer syntax, names in scope and named theorems are lists of this kind. A type may hold a list of
//! values of its own type: `specs/formers` has the laws of that.
#![tactic(auto)]

pub mod items;

pub use items::Items;
