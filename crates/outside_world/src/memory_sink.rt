//! A sink in memory, which fails at the calls that it is given and where its capacity ends.
ghost use Rattle.std.specs.Prelude.{◌≡◌, ◌≤◌, ◌↔◌, [], ◌++◌, if◌then◌else◌, Some, length, vec_capacity, is_ok, IsErr, OnOk, OnErr, IfOk};
ghost use Rattle.outside_world.specs.Sink.{one_more, Gains, Breaks};
ghost use Rattle.outside_world.specs.MemorySink.{SinkInMemory, sink_seen, kept_at, taken_at, RefusesAt};

use crate::sink::{Failed, Sink};
use std::alloc::{AllocError, Global};
use std::marker::Model;

/// A call of `put` that is to fail.
#[derive(Debug, Clone, Copy, PartialEq, Eq)]
pub struct SinkFail {
    /// The number of the call, the first being 1.
    pub call: u32,
    /// How many bytes of its piece are appended, where the piece and the capacity have this many.
    pub kept: usize,
}

/// Bytes in memory, for tests. Contracts see the bytes, how many there may be, the calls that fail,
/// how many calls there were, and how many of them failed.
#[derive(Drop)]
pub struct MemorySink {
    bytes: Vec<u8>,
    capacity: usize,
    fails: Vec<SinkFail>,
    calls: u64,
    faults: u64,
}

impl Model for MemorySink {
    ghost Value = { SinkInMemory };

    ghost view = { λ sink. record {
      bytes = sink.bytes.items;
      capacity = sink.capacity;
      fails = sink.fails.items;
      calls = sink.calls;
      faults = sink.faults;
    } };

    ghost invariant = { λ sink. (length sink.bytes.items ≤ sink.capacity) × (sink.capacity ≤ vec_capacity sink.bytes) };
}

impl MemorySink {
    /// An empty sink with capacity for this many bytes, which are reserved at once. The calls of `put`
    /// that `fails` names will fail; of two entries for one call the first counts. `Err`: out of memory.
    pub fn new(alloc: Global, capacity: usize, fails: Vec<SinkFail>) -> Result<Self, AllocError>
        ensures { IfOk result (λ sink. sink ≡ record {
          bytes = [];
          capacity = capacity;
          fails = fails.items;
          calls = 0;
          faults = 0;
        }) }
    {
        Ok(MemorySink {
            bytes: Vec::with_capacity(alloc, capacity)?,
            capacity,
            fails,
            calls: 0,
            faults: 0,
        })
    }

    /// The bytes written so far.
    pub fn bytes(&self) -> &[u8]
        ensures { result.now ≡ self.now.bytes }
    {
        &self.bytes
    }
}

impl Sink for MemorySink {
    ghost state = { λ sink. sink_seen sink };

    /// As the trait says. Besides, it fails exactly where this call is one of those that were named
    /// to fail or the piece passes the capacity, and the bytes that it appends are told.
    fn put(&mut self, piece: &[u8]) -> Result<(), Failed>
        ensures calls { self.new.calls ≡ one_more self.old.calls }
        ensures refused { IsErr result ↔ RefusesAt self.old self.new.calls piece.now }
        ensures taken { self.new.bytes ≡ self.old.bytes ++ taken_at self.old self.new.calls piece.now }
        ensures capacity { self.new.capacity ≡ self.old.capacity }
        ensures fails { self.new.fails ≡ self.old.fails }

        ensures ok { OnOk result (Gains (sink_seen self.old) (sink_seen self.new) piece.now) }
        ensures breaks { OnErr result (Breaks (sink_seen self.old) (sink_seen self.new) piece.now) }
        ensures later { self.old.faults ≤ self.new.faults }
        ensures faults { self.new.faults ≡ (if is_ok result then self.old.faults else one_more self.old.faults) }
    {
        self.calls = self.calls.saturating_add(1);
        let kept = kept(&self.fails, self.calls);
        let capacity_left = self.capacity - self.bytes.len();
        let count = kept
            .unwrap_or(piece.len())
            .min(piece.len())
            .min(capacity_left);
        self.bytes.extend_from_slice(&piece[..count]).unwrap();
        if kept.is_some() || count < piece.len() {
            self.faults = self.faults.saturating_add(1);
            return Err(Failed);
        }
        Ok(())
    }
}

// How many bytes the call of this number keeps, if it is one of those named.
fn kept(fails: &[SinkFail], call: u64) -> Option<usize>
    ensures { result ≡ kept_at fails.now call }
{
    fails
        .iter()
        .find(|fail| u64::from(fail.call) == call)
        .map(|fail| fail.kept)
}
