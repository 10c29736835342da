//! Faults of the text of a state.
use foundation::threads::CrossesThreads;
use std::alloc::{AllocError, AllocFailed};

/// Why a text is no state in which a round of a network begins. The number of a row is that of the first row at fault,
/// from 1; nodes and links are numbered from 0.
///
/// docs/FORMATS.md, "State of a round".
#[derive(Debug, Clone, Copy, PartialEq, Eq)]
pub enum StateFault {
    /// Out of memory. It says nothing of the text.
    NoMemory,
    /// The text does not begin with the record `kind,name,x,y,z`.
    Header,
    /// The row has not five fields, the first is none of the seven kinds, or a number that is read of it is none.
    Row(u32),
    /// The row names no node or link of which its kind can speak.
    Name(u32),
    /// The row is out of its time: it is the first one and does not tell the begin of a round, or it is a later one and
    /// tells when the round begins, or what comes on a link outside of the seconds that it takes to travel it.
    Time(u32),
    /// The least link whose queue is told twice, or on which what comes is told in seconds that do not rise.
    Sense(u32),
    /// The least link whose version is told twice or is more than one above the number of the round, or whose rows are no
    /// forecast, or whose forecast has rows and no version.
    Board(u32),
    /// The least node whose greens are no lawful timeline that goes on in the first second of the round, or of whose greens one begins
    /// after second 100,000. A node that is not asked may have none.
    Line(u32),
    /// The least node that senses more than 2,000,000,000 thousandths of a vehicle.
    Sum(u32),
    /// The least link whose queue is 0 and has stood, or has stood for more seconds than there were.
    Stood(u32),
    /// The least node of whose greens one begins more than 3,780 seconds after the begin of the round.
    Late(u32),
    /// Where all nodes are asked: the least link whose version is above the number of the round.
    Told(u32),
}

impl CrossesThreads for StateFault {}

impl From<AllocError> for StateFault {
    ghost use Rattle.std.specs.Prelude.{◌≡◌};
    ghost use Rattle.round_states.specs.declared.faults.StateFault.TheVariants.{NoMemory};

    ghost from_gives = { λ _ fault. fault ≡ NoMemory };

    fn from(_error: AllocError) -> StateFault {
        StateFault::NoMemory
    }
}

impl<T: Drop> From<AllocFailed<T>> for StateFault {
    ghost use Rattle.std.specs.Prelude.{◌≡◌};
    ghost use Rattle.round_states.specs.declared.faults.StateFault.TheVariants.{NoMemory};

    ghost from_gives = { λ _ fault. fault ≡ NoMemory };

    fn from(_error: AllocFailed<T>) -> StateFault {
        StateFault::NoMemory
    }
}
