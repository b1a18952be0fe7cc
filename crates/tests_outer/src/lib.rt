//! Tests of the crates of the outer syntax: the recogniser, the readers of facts, propositions and names, and the command
//! that a piece is read as, or the place where it is refused.
//!
//! A crate of tests alone: each file is one or a few drivers with tables of what must come, over short texts. The places in
//! `samples` came from an independent reader of the same forms; that table is their source.
#![tactic(auto)]

#[cfg(test)]
mod levels;
#[cfg(test)]
mod neighbours;
#[cfg(test)]
mod parts;
#[cfg(test)]
mod samples;
#[cfg(test)]
mod texts;
