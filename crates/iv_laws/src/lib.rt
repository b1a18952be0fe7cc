//! Laws of terms that compute: what hereditary substitution, abstraction, contraction and hereditary Harrop form do to one another.
//!
//! Each law is the contract of a public function that does nothing: [`abstraction`], [`spines`], [`forms`], and [`hyps`] for
//! lists of hypotheses. Whoever unifies, lifts or infers types calls the function to have the law. What is said of one definition
//! alone stands in the laws of `iv_hsub`.
#![tactic(auto)]

pub mod abstraction;
pub mod forms;
pub mod hyps;
pub mod spines;
