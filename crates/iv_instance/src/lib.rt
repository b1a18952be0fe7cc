//! A substitution as an instance: from what unification finds to the rule that puts it into a theorem.
//!
//! A substitution has one term for each schematic variable's name; the rule of instantiation takes terms for variables,
//! each a name and a type. [`instance`] gives each name its value's type, which is the variable's wherever the substitution
//! can be applied, and then both leave the same: that, and that hypotheses without schematic variables stay, is in [`laws`]. The crate
//! stands above `iv_put` and `iv_rules`, neither of which needs the other, and below tactics.
#![tactic(auto)]

pub mod conversion;
pub mod laws;

pub use conversion::instance;
