//! Tests of the crates of text: owners, texts and names, lists, bytes in and out, tokens, places and the words of the
//! command line.
//!
//! A crate of tests alone: each file is one or a few drivers with tables of what must come. Expected values are written by
//! hand, and never taken from what the program answers.
#![tactic(auto)]

#[cfg(test)]
mod documents;
#[cfg(test)]
mod streams;
#[cfg(test)]
mod values;
