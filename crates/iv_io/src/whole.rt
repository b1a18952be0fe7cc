ghost use Rattle.std.specs.Prelude.{◌≡◌, ◌≢◌, ℕ, ◌+◌, ◌<◌, ◌≤◌, List, [], ◌++◌, Some, length, take, drop, Err, IfOk, OnOk, OnErr};
ghost use Rattle.iv_io.specs.Counts.{counted, Rose, RoseAbove};

use crate::failed::Failed;
use crate::sink::Sink;
use crate::source::Source;
use std::alloc::{AllocError, Global};

/// Why a source was not read to its end.
#[derive(Clone, Copy, Debug, PartialEq, Eq)]
pub enum ReadError {
    /// The source failed.
    Failed,
    /// The source gave more bytes than the limit.
    TooLarge,
    /// Memory ran out.
    Memory,
}

impl From<Failed> for ReadError {
    ghost use Rattle.std.specs.Prelude.{◌≡◌};
    ghost use Rattle.iv_io.specs.declared.whole.ReadError.TheVariants.{Failed};

    ghost from_gives = { λ _ e. e ≡ Failed };

    fn from(_failed: Failed) -> ReadError {
        ReadError::Failed
    }
}

impl From<AllocError> for ReadError {
    ghost use Rattle.std.specs.Prelude.{◌≡◌};
    ghost use Rattle.iv_io.specs.declared.whole.ReadError.TheVariants.{Memory};

    ghost from_gives = { λ _ e. e ≡ Memory };

    fn from(_error: AllocError) -> ReadError {
        ReadError::Memory
    }
}

/// Reads a source to its end. Fails where the source fails, where it gives more than `limit` bytes, and
/// where memory runs out.
pub fn read_all<S: Source>(
    alloc: Global,
    source: &mut S,
    limit: usize,
) -> Result<Vec<u8>, ReadError>
    ensures whole { IfOk result (λ v. (b : List ℕ) → S.left source.old ≡ Some b → v.items ≡ b) }
    ensures at_end { OnOk result ((b : List ℕ) → S.left source.old ≡ Some b →
        S.left source.new ≡ Some []) }
    ensures taken_ok { IfOk result (λ v.
        S.taken source.new ≡ counted (S.taken source.old) (length v.items)) }
    ensures within { IfOk result (λ v. length v.items ≤ limit) }
    ensures too_large { result ≡ Err ReadError.TooLarge →
        RoseAbove limit (S.taken source.old) (S.taken source.new) }
    ensures too_large_told { result ≡ Err ReadError.TooLarge →
        (b : List ℕ) → S.left source.old ≡ Some b → limit < length b }
    ensures not_too_large { result ≢ Err ReadError.TooLarge →
        S.taken source.new ≤ S.taken source.old + limit }
    ensures failed { result ≡ Err ReadError.Failed →
        Rose (S.faults source.old) (S.faults source.new) }
    ensures not_failed { result ≢ Err ReadError.Failed →
        S.faults source.new ≡ S.faults source.old }
    ensures faults_grow { S.faults source.old ≤ S.faults source.new }
    ensures taken_grow { S.taken source.old ≤ S.taken source.new }
    // in any case, the bytes given came off the front of a told `left`
    ensures advanced { (b : List ℕ) → S.left source.old ≡ Some b →
        ((n : ℕ) × (n ≤ length b) × (S.left source.new ≡ Some (drop n b))
        × (S.taken source.new ≡ counted (S.taken source.old) n)) }
{
    let mut buffer = [0u8; 4096];
    let mut bytes = Vec::new(alloc);
    'reads: loop {
        let count = source.read(&mut buffer)?;
        if count == 0 {
            return Ok(bytes);
        }
        if count > limit - bytes.len() {
            return Err(ReadError::TooLarge);
        }
        bytes.extend_from_slice(&buffer[..count])?;
    }
}

/// Writes all of `bytes`. Fails where the sink fails.
pub fn write_all<K: Sink>(sink: &mut K, bytes: &[u8]) -> Result<(), Failed>
    ensures whole { OnOk result ((w : List ℕ) → K.written sink.old ≡ Some w →
        K.written sink.new ≡ Some (w ++ bytes.now)) }
    ensures faults_stay { OnOk result (K.faults sink.new ≡ K.faults sink.old) }
    ensures failed { OnErr result (Rose (K.faults sink.old) (K.faults sink.new)) }
    // what was taken before the failure is a front part of `bytes`
    ensures part { OnErr result ((n : ℕ) × (n ≤ length bytes.now) ×
        ((w : List ℕ) → K.written sink.old ≡ Some w →
        K.written sink.new ≡ Some (w ++ take n bytes.now))) }
    ensures faults_grow { K.faults sink.old ≤ K.faults sink.new }
{
    let mut done = 0;
    'writes: while done < bytes.len() {
        done += sink.write(&bytes[done..])?;
    }
    Ok(())
}
