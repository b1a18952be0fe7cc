//! Tests of lazy sequences: composed ones with items of which searches see a part, steps after steps 10,000 deep, and
//! that no more is done than is asked for.
//!
//! A crate of tests alone. Expected leaves are written by hand.
#![tactic(auto)]

#[cfg(test)]
mod deep;
#[cfg(test)]
mod grants;
#[cfg(test)]
mod work;
