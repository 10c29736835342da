//! A source in memory, which fails at the calls that it is given.
ghost use Rattle.std.specs.Prelude.{◌≡◌, ◌≤◌, ◌↔◌, [], length, Contains, IsTrue, IfOk, OnErr, OnOk, vec_capacity};
ghost use Rattle.outside_world.specs.MemorySource.{SourceInMemory, source_seen};
ghost use Rattle.outside_world.specs.Sink.{one_more};
ghost use Rattle.outside_world.specs.Source.{IsRead};

use crate::keeping::{keep, piece_of};
use crate::sink::Failed;
use crate::source::{LineRead, Source};
use std::marker::Model;

/// Bytes in memory, for tests. Contracts see the bytes, how many of them have come, the numbers of the calls that fail, how many
/// calls there were, and how many of them failed.
#[derive(Drop)]
pub struct MemorySource {
    bytes: Vec<u8>,
    came: usize,
    fails: Vec<u32>,
    calls: u64,
    faults: u64,
}

impl Model for MemorySource {
    ghost Value = { SourceInMemory };

    ghost view = { λ source. record {
      bytes = source.bytes.items;
      came = source.came;
      fails = source.fails.items;
      calls = source.calls;
      faults = source.faults;
    } };

    ghost invariant = { λ source. source.came ≤ length source.bytes.items };
}

impl MemorySource {
    /// A source of these bytes. The calls of `take_line` that `fails` names will fail, the first call being 1.
    pub fn new(bytes: Vec<u8>, fails: Vec<u32>) -> Self
        ensures { result ≡ record { bytes = bytes.items; came = 0; fails = fails.items; calls = 0; faults = 0 } }
    {
        MemorySource {
            bytes,
            came: 0,
            fails,
            calls: 0,
            faults: 0,
        }
    }
}

impl Source for MemorySource {
    ghost state = { λ source. source_seen source };

    /// As the trait says. Besides, it fails exactly where this call is one of those that were named to fail.
    fn take_line(&mut self, line: &mut Vec<u8>, most: usize) -> Result<LineRead, Failed>
        ensures calls { self.new.calls ≡ one_more self.old.calls }
        ensures failed { OnErr result (Contains self.old.fails self.new.calls) }
        ensures not_failed { OnOk result (¬ Contains self.old.fails self.new.calls) }
        ensures bytes { self.new.bytes ≡ self.old.bytes }
        ensures fails { self.new.fails ≡ self.old.fails }

        ensures line { IfOk result (λ read.
            IsRead read (source_seen self.old) (source_seen self.new) (vec_capacity line.old) most line.new.items) }
        ensures most { OnOk result (length line.new.items ≤ most) }
        ensures breaks { OnErr result (self.new.faults ≡ one_more self.old.faults) }
        ensures capacity { vec_capacity line.old ≤ vec_capacity line.new }
    {
        self.calls = self.calls.saturating_add(1);
        line.clear();
        if is_named(&self.fails, self.calls) {
            self.faults = self.faults.saturating_add(1);
            return Err(Failed);
        }
        if self.came == self.bytes.len() {
            return Ok(LineRead::End);
        }
        let count = piece_of(&self.bytes[self.came..]);
        let piece = &self.bytes[self.came..self.came + count];
        let read = keep(line, piece, most, LineRead::End);
        self.came += count;
        Ok(read)
    }
}

// Whether the call of this number is one of those named.
fn is_named(fails: &[u32], call: u64) -> bool
    ensures { IsTrue result ↔ Contains fails.now call }
{
    fails.iter().any(|&fail| u64::from(fail) == call)
}
