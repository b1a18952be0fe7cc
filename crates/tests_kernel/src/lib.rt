//! Tests of the crates of rules: derivations and instances, equations, and the kernel's theorems and goals.
//!
//! Terms are short texts that `written` reads. A proof is a row of `kernel`: terms, each with the rules that are used there
//! and those that are refused. The crates are `iv_rules`, `iv_conclusions` and `iv_kernel`. Nothing stands on this
//! crate.
#![tactic(auto)]

#[cfg(test)]
mod equations;
#[cfg(test)]
mod instances;
#[cfg(test)]
mod kernel;
#[cfg(test)]
mod putting;
#[cfg(test)]
mod written;
