//! Maps by name that keep the order of entry.
//!
//! [`NameMap`] holds a value for each of its names. Contracts see the list of its entries, no two of which have one
//! name. A look-up goes by a hash of the name's text and number, and takes no memory.
#![tactic(auto)]

pub mod name_map;

pub use name_map::NameMap;
