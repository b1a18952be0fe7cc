//! Search trees and lazy sequences.
//!
//! A lazy sequence stands for a finite search: a tree with leaves, and with counted work on the way to them. Its leaves are
//! what is [`Seen`] of the items that it gives; an item may keep more than that.
//! A [`pull`](LazySeq::pull) gives the first leaf that is left and does no more counted work than that leaf needs.
//! [`Listed`], [`Append`], [`OrElse`], [`Take`] and [`Bind`] build sequences, and [`Steps`] counts in contracts.
//! [`Follow`] is what [`Bind`] leads to from an item. [`Unfolded`] takes such steps one after another, as many as a number
//! says: each [`Outcome`] is a result or a place to go on from. [`gathered`] pulls all leaves. Nothing stands on it yet.
//!
//! The laws are contracts of the functions in [`laws`]; lemmas for whoever writes a sequence of their own stand in `proofs/Theory.antt`.
#![tactic(auto)]

pub mod append;
pub mod bind;
pub mod follow;
pub mod gather;
pub mod laws;
pub mod lazy;
pub mod listed;
pub mod next;
pub mod optional;
pub mod or_else;
pub mod seen;
pub mod steps;
pub mod take;
pub mod unfolded;

pub use append::Append;
pub use bind::Bind;
pub use follow::Follow;
pub use gather::gathered;
pub use lazy::LazySeq;
pub use listed::Listed;
pub use next::{Next, Outcome};
pub use or_else::OrElse;
pub use seen::Seen;
pub use steps::Steps;
pub use take::Take;
pub use unfolded::Unfolded;
