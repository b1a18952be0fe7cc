//! Where bytes come from and where they go.
//!
//! The program reads documents through a [`Source`] and writes its answers through a [`Sink`]. The traits
//! carry the contract of each call. Bytes come in order and none is lost or made up, where the source
//! tells its bytes. The end is told only at the end. A call answers [`Failed`] only where the count of faults rose, and
//! has then moved no byte. Every count stops at 2^64 - 1, and one that stands there counts as risen.
//!
//! [`read_all`] and [`write_all`] read to the end and write the whole; a [`ReadError`] says why a source was not read.
//! They stand on the traits alone, so what they promise holds at every source and sink. The program stands on them.
//!
//! [`MemSource`] and [`MemSink`] work in memory, in pieces and with failures as a test wants them, and their
//! contracts are exact. [`StdSource`] and [`StdSink`] stand over readers and writers of `std`. They are the
//! edge to the system: they count, and tell no bytes.
#![tactic(auto)]

pub mod failed;
pub mod memory;
pub mod sink;
pub mod source;
pub mod system;
pub mod whole;

pub use failed::Failed;
pub use memory::{MemSink, MemSource};
pub use sink::Sink;
pub use source::Source;
pub use system::{StdSink, StdSource};
pub use whole::{ReadError, read_all, write_all};
