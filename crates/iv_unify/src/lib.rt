//! Unification of terms (Huet 1975): pairs of terms that are to become equal, and the tree of their unifiers.
//!
//! A [`Pair`] has two terms under the same bound variables. `specs/` has the tree: `Simplify` makes types equal and takes
//! pairs apart, `Values` says what is put for a schematic variable, by assignment, projection, imitation or closing, and
//! `Unifiers` is the whole, by recursion on the depth. What holds of its leaves is in [`laws`].
#![tactic(auto)]

pub mod laws;
pub mod pair;

pub use pair::Pair;
