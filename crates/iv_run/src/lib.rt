//! The top call: a document is read, its commands are executed in order over the kernel, and its report is written.
//!
//! [`run_isar`] is what the program `isarvm` calls; its contract is the main theorem of this repository, in named clauses, and
//! [`Status`] is how it answers. Below it stand the machine ([`machine`], [`names`], [`refusal`]), the lines of reports
//! ([`report`]; [`lines`] has the law that each is one line), and statements with their proof by assumption ([`statement`],
//! [`claim`], [`prove`]), which is the only method there is so far. [`law`] has the law that each theorem of a document is
//! derivable.
#![tactic(auto)]

pub mod claim;
pub mod law;
pub mod lines;
pub mod machine;
pub mod names;
pub mod prove;
pub mod refusal;
pub mod report;
pub mod run;
pub mod statement;
pub mod status;

pub use run::run_isar;
pub use status::Status;
