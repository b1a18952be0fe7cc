ghost use Rattle.std.specs.Prelude.{◌≡◌, ◌↔◌, ◌<◌, ◌≤◌, ℕ, List, [], ◌++◌, length, take, drop, Some, Ok, IfOk, IfErr, OnErr, IsErr, IsTrue};
ghost use Rattle.iv_io.specs.Counts.{last_count, counted};
ghost use Rattle.iv_io.specs.Memory.{FailsNext, gives, takes, RefusesNext};
ghost use Rattle.iv_text.specs.declared.want.Want.TheVariants.{Memory};

use crate::failed::Failed;
use crate::sink::Sink;
use crate::source::Source;
use iv_text::Mem;
use std::alloc::Global;
use std::marker::Model;

/// A source over bytes in memory, which fails where a test wants it.
#[derive(Drop)]
pub struct MemSource {
    bytes: Vec<u8>,
    at: usize,
    piece: usize,
    fails: Vec<u64>,
    calls: u64,
    taken: u64,
    faults: u64,
}

impl Model for MemSource {
    ghost use Rattle.std.specs.Prelude.{◌≤◌, length, drop};
    ghost use Rattle.iv_io.specs.Counts.{last_count};
    ghost use Rattle.iv_io.specs.Memory.{Feed};

    ghost Value = { Feed };

    ghost view = { λ s. record {
      left = drop s.at s.bytes.items;
      piece = s.piece;
      fails = s.fails.items;
      calls = s.calls;
      taken = s.taken;
      faults = s.faults;
    } };

    ghost invariant = { λ s. (1 ≤ s.piece) × (s.at ≤ length s.bytes.items)
        × (s.taken ≤ last_count) × (s.faults ≤ last_count) };
}

impl MemSource {
    /// A source of `bytes` that gives at most `piece` of them at a call. The calls with a number in
    /// `fails`, counted from 1, fail.
    pub fn new(bytes: Vec<u8>, piece: usize, fails: Vec<u64>) -> MemSource
        requires { 1 ≤ piece }
        ensures { result ≡ record {
          left = bytes.items;
          piece = piece;
          fails = fails.items;
          calls = 0;
          taken = 0;
          faults = 0;
        } }
    {
        MemSource {
            bytes,
            at: 0,
            piece,
            fails,
            calls: 0,
            taken: 0,
            faults: 0,
        }
    }
}

impl Source for MemSource {
    ghost left = { λ s. Some s.left };

    ghost taken = { λ s. s.taken };

    ghost faults = { λ s. s.faults };

    /// Gives as many bytes as the piece, the room and what is left allow. Takes no memory. Fails in the
    /// calls whose number is listed, and leaves `into` as it was.
    fn read(&mut self, into: &mut [u8]) -> Result<usize, Failed>
        ensures fails { IsErr result ↔ FailsNext self.old.fails self.old.calls }
        ensures count { IfOk result (λ n. n ≡ gives self.old (length into.old)) }
        ensures bytes { IfOk result (λ n. into.new ≡ take n self.old.left ++ drop n into.old) }
        ensures after { IfOk result (λ n. self.new ≡ record self.old {
          left = drop n self.old.left;
          calls = counted self.old.calls 1;
          taken = counted self.old.taken n;
        }) }
        ensures after_err { OnErr result (self.new ≡ record self.old {
          calls = counted self.old.calls 1;
          faults = counted self.old.faults 1;
        }) }
        ensures into_err { OnErr result (into.new ≡ into.old) }
        ensures end { 0 < length into.old → result ≡ Ok 0 →
            (b : List ℕ) → Some self.old.left ≡ Some b → b ≡ [] }
        ensures faults_grow { self.old.faults ≤ self.new.faults }
        ensures faults_fit { self.new.faults ≤ last_count }
        ensures taken_fits { self.new.taken ≤ last_count }
        ensures taken_fitted { self.old.taken ≤ last_count }
    {
        let fails = is_listed(self.fails.as_slice(), self.calls);
        self.calls = self.calls.saturating_add(1);
        if fails {
            self.faults = self.faults.saturating_add(1);
            return Err(Failed);
        }
        let left = &self.bytes.as_slice()[self.at..];
        let count = self.piece.min(into.len()).min(left.len());
        into[..count].copy_from_slice(&left[..count]);
        self.at += count;
        self.taken = self.taken.saturating_add(count as u64);
        Ok(count)
    }
}

// Whether the call after `calls` others is in the list.
fn is_listed(fails: &[u64], calls: u64) -> bool
    ensures { IsTrue result ↔ FailsNext fails.now calls }
{
    match calls.checked_add(1) {
        Some(number) => fails.contains(&number),
        None => false,
    }
}

/// A sink into memory, which fails where a test wants it.
#[derive(Drop)]
pub struct MemSink {
    written: Vec<u8>,
    capacity: usize,
    piece: usize,
    fails: Vec<u64>,
    calls: u64,
    faults: u64,
}

impl Model for MemSink {
    ghost use Rattle.std.specs.Prelude.{◌≤◌, length, vec_capacity};
    ghost use Rattle.iv_io.specs.Counts.{last_count};
    ghost use Rattle.iv_io.specs.Memory.{Tray};

    ghost Value = { Tray };

    ghost view = { λ s. record {
      written = s.written.items;
      capacity = s.capacity;
      piece = s.piece;
      fails = s.fails.items;
      calls = s.calls;
      faults = s.faults;
    } };

    ghost invariant = { λ s. (1 ≤ s.piece) × (length s.written.items ≤ s.capacity)
        × (s.capacity ≤ vec_capacity s.written) × (s.faults ≤ last_count) };
}

impl MemSink {
    /// A sink that holds at most `capacity` bytes and takes at most `piece` of them at a call. The calls
    /// with a number in `fails`, counted from 1, fail. Takes all its memory here; fails where there is none.
    pub fn new(alloc: Global, capacity: usize, piece: usize, fails: Vec<u64>) -> Mem<MemSink>
        requires { 1 ≤ piece }
        ensures ok { IfOk result (λ s. s ≡ record {
          written = [];
          capacity = capacity;
          piece = piece;
          fails = fails.items;
          calls = 0;
          faults = 0;
        }) }
        ensures memory { IfErr result (λ w. w ≡ Memory) }
    {
        Ok(MemSink {
            written: Vec::with_capacity(alloc, capacity)?,
            capacity,
            piece,
            fails,
            calls: 0,
            faults: 0,
        })
    }

    /// The bytes written so far.
    pub fn written(&self) -> &[u8]
        ensures { result.now ≡ self.now.written }
    {
        self.written.as_slice()
    }
}

impl Sink for MemSink {
    ghost written = { λ s. Some s.written };

    ghost faults = { λ s. s.faults };

    /// Takes as many bytes as the piece, `from` and the capacity allow. Takes no memory. Fails in the calls
    /// whose number is listed, and where `from` is not empty and nothing fits.
    fn write(&mut self, from: &[u8]) -> Result<usize, Failed>
        ensures fails { IsErr result ↔ RefusesNext self.old (length from.now) }
        ensures count { IfOk result (λ n. n ≡ takes self.old (length from.now)) }
        ensures after { IfOk result (λ n. self.new ≡ record self.old {
          written = self.old.written ++ take n from.now;
          calls = counted self.old.calls 1;
        }) }
        ensures after_err { OnErr result (self.new ≡ record self.old {
          calls = counted self.old.calls 1;
          faults = counted self.old.faults 1;
        }) }
        ensures progress { 0 < length from.now → IfOk result (λ n. 1 ≤ n) }
        ensures faults_grow { self.old.faults ≤ self.new.faults }
        ensures faults_fit { self.new.faults ≤ last_count }
    {
        let fails = is_listed(self.fails.as_slice(), self.calls);
        let room = self.capacity - self.written.len();
        self.calls = self.calls.saturating_add(1);
        if fails || (!from.is_empty() && room == 0) {
            self.faults = self.faults.saturating_add(1);
            return Err(Failed);
        }
        let count = self.piece.min(from.len()).min(room);
        match self.written.extend_from_slice(&from[..count]) {
            Ok(()) => Ok(count),
            Err(_) => unreachable!(),
        }
    }
}
