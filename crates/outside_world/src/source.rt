//! A source: lines that come one after another, and a count of faults.
ghost use Rattle.std.specs.Prelude.{◌≡◌, ◌≤◌, IfOk, OnErr, OnOk, length, vec_capacity};
ghost use Rattle.outside_world.specs.Sink.{one_more};
ghost use Rattle.outside_world.specs.Source.{SourceState, IsRead};

use crate::sink::Failed;

/// How much was kept of a line.
#[derive(Debug, Clone, Copy, PartialEq, Eq)]
pub enum LineRead {
    /// Nothing: the source has ended.
    End,
    /// The whole line.
    Whole,
    /// A front of the line, which is longer than what may be kept, or for whose rest there is no memory. It may also be all of a line
    /// whose length is just what may be kept.
    Part,
}

/// Where lines come from.
pub trait Source {
    /// The source as contracts see it: the bytes still to come, where it exposes them, and how often it has failed, as a
    /// u64 that stays at its last value.
    ghost state: { Self → SourceState };

    /// Takes the next line, with its line feed, and keeps as much of it as there is memory for, and no more than `most` bytes;
    /// what was in `line` before is dropped, and what it has capacity for takes no memory.
    ///
    /// `Failed` comes only where the count of faults rose by one in this call, or stands at the last value of u64.
    fn take_line(&mut self, line: &mut Vec<u8>, most: usize) -> Result<LineRead, Failed>
        ensures line { IfOk result (λ read.
            IsRead read (state self.old) (state self.new) (vec_capacity line.old) most line.new.items) }
        ensures most { OnOk result (length line.new.items ≤ most) }
        ensures breaks { OnErr result ((state self.new).faults ≡ one_more (state self.old).faults) }
        ensures capacity { vec_capacity line.old ≤ vec_capacity line.new };
}
