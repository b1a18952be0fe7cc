//! The inner grammar: the tokens of the texts of types and terms, and their trees.
//!
//! A [`Symbols`] has the delimiters, in all their spellings, and the declared symbols, each with a [`Sign`]: what it is to the
//! grammar, with its priorities. [`inner_tokens`] cuts a text by longest match into tokens: words (identifiers, long names,
//! variables, type variables) and signs. A text in which no token begins somewhere has none. There is one cut.
//!
//! Which trees belong to a list of tokens stands in `specs/TypeTree` and `specs/Tree`: priorities, and that each right place
//! holds a tree that takes as many tokens as it can. [`laws`] says that at most one tree does. [`parse_type`] gives that of a
//! type, as nodes in a vector ([`TypeTree`]); the parser's stack is a vector too, so texts of any nesting are answered.
#![tactic(auto)]

pub mod cutting;
pub mod delimiters;
pub mod laws;
pub mod priorities;
pub mod sign;
pub mod symbols;
pub mod type_nodes;
pub mod type_steps;
pub mod types;
pub mod words;

pub use cutting::{NoTokens, Token, inner_tokens};
pub use sign::Sign;
pub use symbols::Symbols;
pub use type_nodes::TypeForm;
pub use types::{NoParse, TypeTree, parse_type};
pub use words::Word;
