//! A sink: bytes that are appended, and a count of faults.
ghost use Rattle.std.specs.Prelude.{◌≤◌, OnOk, OnErr};
ghost use Rattle.outside_world.specs.Sink.{SinkState, Gains, Breaks};

/// A put failed. The sink's count of faults has risen.
#[derive(Debug, Clone, Copy, PartialEq, Eq)]
pub struct Failed;

/// What bytes are written to.
pub trait Sink {
    /// The sink as contracts see it: the bytes written so far, where it exposes them, and how often it has failed, as a
    /// u64 that stays at its last value.
    ghost state: { Self → SinkState };

    /// Appends the piece. It takes no memory.
    ///
    /// `Failed` comes only where the count of faults rose by one in this call, or stands at the last value of u64. A
    /// front of the piece was then appended.
    fn put(&mut self, piece: &[u8]) -> Result<(), Failed>
        ensures ok { OnOk result (Gains (state self.old) (state self.new) piece.now) }
        ensures breaks { OnErr result (Breaks (state self.old) (state self.new) piece.now) }
        ensures later { (state self.old).faults ≤ (state self.new).faults };
}
