//! The source that reads a stream.
ghost use Rattle.std.specs.Prelude.{◌≡◌, ◌≤◌, ◌<◌, ◌-◌, ℕ, List, None, All, ◌≢◌, ◌⊎◌, length, take, is_ok, if◌then◌else◌, IfOk, OnErr, OnOk, vec_capacity};
ghost use Rattle.outside_world.specs.Sink.{one_more};
ghost use Rattle.outside_world.specs.Source.{IsRead, SourceState};

use crate::keeping::{keep, piece_of};
use crate::sink::Failed;
use crate::source::{LineRead, Source};
use std::alloc::{AllocError, Global};
use std::io::Read;
use std::marker::Model;

/// How many bytes are asked for in one read.
const READ_SIZE: usize = 65536;

/// A stream of std, such as standard input. It does not expose its contents. Contracts see the count of faults.
#[derive(Drop)]
pub struct StreamSource<R: Read + Drop> {
    stream: R,
    buffer: Vec<u8>,
    from: usize,
    to: usize,
    faults: u64,
}

impl<R: Read + Drop> Model for StreamSource<R> {
    ghost Value = { ℕ };

    ghost view = { λ source. source.faults };

    ghost invariant = { λ source. (source.from ≤ source.to) × (source.to ≤ length source.buffer.items) };
}

impl<R: Read + Drop> StreamSource<R> {
    /// A source over this stream, whose count of faults is 0. `Err`: out of memory.
    pub fn new(alloc: Global, stream: R) -> Result<Self, AllocError>
        ensures { IfOk result (λ source. source ≡ 0) }
    {
        Ok(StreamSource {
            stream,
            buffer: Vec::from_elem(alloc, 0, READ_SIZE)?,
            from: 0,
            to: 0,
            faults: 0,
        })
    }

    // Reads on where all that was read is taken. None is then there to be taken only where the stream has ended.
    fn fill(&mut self) -> Result<(), Failed>
        ensures faults { self.new ≡ (if is_ok result then self.old else one_more self.old) }
    {
        if self.from == self.to {
            self.from = 0;
            self.to = 0;
            match self.stream.read(&mut self.buffer) {
                Ok(count) => self.to = count,
                Err(_) => {
                    self.faults = self.faults.saturating_add(1);
                    return Err(Failed);
                }
            }
        }
        Ok(())
    }
}

impl<R: Read + Drop> Source for StreamSource<R> {
    ghost state = { λ faults. record { left = None; faults = faults } };

    /// As the trait says.
    fn take_line(&mut self, line: &mut Vec<u8>, most: usize) -> Result<LineRead, Failed>
        ensures line { IfOk result (λ read. IsRead read (record { left = None; faults = self.old })
            (record { left = None; faults = self.new }) (vec_capacity line.old) most line.new.items) }
        ensures most { OnOk result (length line.new.items ≤ most) }
        ensures breaks { OnErr result (self.new ≡ one_more self.old) }
        ensures capacity { vec_capacity line.old ≤ vec_capacity line.new }
    {
        line.clear();
        let mut read = LineRead::End;
        for _ in 0..u64::MAX {
            self.fill()?;
            if self.from == self.to {
                return Ok(read);
            }
            let unread = &self.buffer[self.from..self.to];
            let count = piece_of(unread);
            let piece = &unread[..count];
            read = keep(line, piece, most, read);
            let last = piece[count - 1];
            self.from += count;
            if last == b'\n' {
                return Ok(read);
            }
        }
        // What came is a front of a line: each pass of the loop took a byte.
        Ok(read)
    }
}
