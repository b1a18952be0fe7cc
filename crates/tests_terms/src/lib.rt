//! Tests of the crates of terms: examples with answers from outside, and each call once where memory is ample.
//!
//! Types and terms are short texts that `written` reads, and most tests are a table of them. The crates are `iv_term`,
//! `iv_scope`, `iv_map`, `iv_hsub`, `iv_subst`, `iv_put` and `iv_sig`. Nothing stands on this crate.
#![tactic(auto)]

#[cfg(test)]
mod computing;
#[cfg(test)]
mod named;
#[cfg(test)]
mod putting;
#[cfg(test)]
mod signature;
#[cfg(test)]
mod unifying;
#[cfg(test)]
mod values;
#[cfg(test)]
mod written;
