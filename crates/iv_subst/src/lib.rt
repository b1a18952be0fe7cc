//! Types put for schematic variables, and unification of types.
//!
//! [`TySubst`] is a finite map from schematic type variables to types, which are put all at once. [`unify_types`]
//! finds a most general unifier, and [`Solved`] goes on from what earlier calls found; [`NoUnify`] says why there is none:
//! no substitution makes the types equal, or memory ran out. Each call's result is a definition of `specs/`, with what makes
//! it a most general unifier beside it. Laws are in [`statements`]. The substitutions of `iv_put`, and the rules of the logic
//! with them, stand on this crate.
#![tactic(auto)]

pub mod apply;
mod compose;
mod heads;
pub mod no_unify;
mod occurs;
mod pairs;
mod puts;
pub mod solved;
pub mod statements;
pub mod ty_subst;
mod unify;

pub use no_unify::NoUnify;
pub use solved::{Solved, unify_types};
pub use ty_subst::TySubst;
