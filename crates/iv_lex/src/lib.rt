//! The outer tokens of a document.
//!
//! Bytes are read as letters: characters of UTF-8, and bytes that are none. [`tokens`] cuts them by longest match, and
//! between tokens stand blanks and whole comments. A [`Token`] has its [`Kind`], its text, and where it begins and ends.
//! Every document is cut in just one way. All readers of the outer syntax stand on it.
#![tactic(auto)]

pub mod classes;
pub mod cutting;
pub mod forms;
pub mod laws;
pub mod letters;
pub mod nests;
pub mod spellings;
pub mod starts;

pub use cutting::{Kind, Token, tokens};
