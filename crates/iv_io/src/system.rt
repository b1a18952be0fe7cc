ghost use Rattle.std.specs.Prelude.{◌≡◌, None};

use crate::failed::Failed;
use crate::sink::Sink;
use crate::source::Source;
use std::io::{Read, Write};
use std::marker::Model;

/// A source over a reader of `std`. It tells no bytes; contracts see its counts.
#[derive(Drop)]
pub struct StdSource<R: Read + Drop> {
    reader: R,
    taken: u64,
    faults: u64,
}

impl<R: Read + Drop> Model for StdSource<R> {
    ghost use Rattle.std.specs.Prelude.{◌≤◌};
    ghost use Rattle.iv_io.specs.Counts.{last_count, Tally};

    ghost Value = { Tally };

    ghost view = { λ s. record { taken = s.taken; faults = s.faults } };

    ghost invariant = { λ s. (s.taken ≤ last_count) × (s.faults ≤ last_count) };
}

impl<R: Read + Drop> StdSource<R> {
    /// A source that reads from `reader`, and has counted nothing so far.
    pub fn new(reader: R) -> StdSource<R>
        ensures { result ≡ record { taken = 0; faults = 0 } }
    {
        StdSource {
            reader,
            taken: 0,
            faults: 0,
        }
    }
}

impl<R: Read + Drop> Source for StdSource<R> {
    ghost left = { λ _. None };

    ghost taken = { λ s. s.taken };

    ghost faults = { λ s. s.faults };

    fn read(&mut self, into: &mut [u8]) -> Result<usize, Failed> {
        match self.reader.read(into) {
            Ok(count) => {
                self.taken = self.taken.saturating_add(count as u64);
                Ok(count)
            }
            Err(_) => {
                self.faults = self.faults.saturating_add(1);
                Err(Failed)
            }
        }
    }
}

/// A sink over a writer of `std`. It tells no bytes; contracts see its count of faults. A writer that takes
/// none of some bytes has failed.
#[derive(Drop)]
pub struct StdSink<W: Write + Drop> {
    writer: W,
    faults: u64,
}

impl<W: Write + Drop> Model for StdSink<W> {
    ghost use Rattle.std.specs.Prelude.{ℕ, ◌≤◌};
    ghost use Rattle.iv_io.specs.Counts.{last_count};

    ghost Value = { ℕ };

    ghost view = { λ s. s.faults };

    ghost invariant = { λ s. s.faults ≤ last_count };
}

impl<W: Write + Drop> StdSink<W> {
    /// A sink that writes to `writer`, and has counted nothing so far.
    pub fn new(writer: W) -> StdSink<W>
        ensures { result ≡ 0 }
    {
        StdSink { writer, faults: 0 }
    }
}

impl<W: Write + Drop> Sink for StdSink<W> {
    ghost written = { λ _. None };

    ghost faults = { λ s. s };

    fn write(&mut self, from: &[u8]) -> Result<usize, Failed> {
        match self.writer.write(from) {
            Ok(count) if count > 0 || from.is_empty() => Ok(count),
            _ => {
                self.faults = self.faults.saturating_add(1);
                Err(Failed)
            }
        }
    }
}
