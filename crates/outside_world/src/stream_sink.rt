//! The sink that writes to a stream.
ghost use Rattle.std.specs.Prelude.{◌≡◌, ◌≤◌, if◌then◌else◌, None, is_ok, OnOk, OnErr};
ghost use Rattle.std.specs.Io.KnownBytes.{Appends};
ghost use Rattle.outside_world.specs.Sink.{one_more};
ghost use Rattle.outside_world.specs.StreamSink.{SinkOverStream, AppendsFront};

use crate::sink::{Failed, Sink};
use std::io::Write;
use std::marker::Model;

/// A stream of std, such as standard output. It does not expose its contents. Contracts see the stream and the
/// count of faults.
#[derive(Drop)]
pub struct StreamSink<W: Write> {
    stream: W,
    faults: u64,
}

impl<W: Write> Model for StreamSink<W> {
    ghost Value = { SinkOverStream W };

    ghost view = { λ sink. record { stream = sink.stream; faults = sink.faults } };
}

impl<W: Write> StreamSink<W> {
    /// A sink over this stream, whose count of faults is 0.
    pub fn new(stream: W) -> Self
        ensures { result ≡ record { stream = stream; faults = 0 } }
    {
        StreamSink { stream, faults: 0 }
    }
}

impl<W: Write> Sink for StreamSink<W> {
    ghost state = { λ sink. record { written = None; faults = sink.faults } };

    /// As the trait says. Besides, the stream is given the piece, or a front of it at `Failed`, where
    /// it exposes its contents, and the count rises by one at `Failed`.
    fn put(&mut self, piece: &[u8]) -> Result<(), Failed>
        ensures ok { OnOk result (Appends (W.contents self.old.stream) (W.contents self.new.stream) piece.now) }
        ensures breaks { OnErr result
            (AppendsFront (W.contents self.old.stream) (W.contents self.new.stream) piece.now) }
        ensures later { self.old.faults ≤ self.new.faults }
        ensures faults { self.new.faults ≡ (if is_ok result then self.old.faults else one_more self.old.faults) }
    {
        let written = write_whole(&mut self.stream, piece);
        if let Err(Failed) = written {
            self.faults = self.faults.saturating_add(1);
        }
        written
    }
}

// Writes the whole piece. It fails at an error and at a write that takes nothing, with some front of
// the piece written.
fn write_whole<W: Write>(stream: &mut W, piece: &[u8]) -> Result<(), Failed>
    ensures ok { OnOk result (Appends (W.contents stream.old) (W.contents stream.new) piece.now) }
    ensures breaks { OnErr result (AppendsFront (W.contents stream.old) (W.contents stream.new) piece.now) }
{
    let mut done = 0;
    for _ in 0..u64::MAX {
        if done >= piece.len() {
            break;
        }
        match stream.write(&piece[done..]) {
            Ok(0) => return Err(Failed),
            Ok(count) => done += count,
            Err(_) => return Err(Failed),
        }
    }
    // Each turn wrote a byte, so all are written where the turns ended.
    Ok(())
}
