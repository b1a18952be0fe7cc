//! The words of the command line.
//!
//! [`task_given`] reads them with `clap`, as a command with the one positional value `MODE`: as a [`Task`], or as
//! [`BadWords`]. Which words it takes, and what they mean, are the functions of the words that `clap` states for such a
//! command. The program stands on it.
#![tactic(auto)]

pub mod words;

pub use words::{BadWords, Task, task_given};
