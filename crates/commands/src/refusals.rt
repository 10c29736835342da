//! Why a command is refused, and the line that says so.
ghost use Rattle.std.specs.Prelude.{◌≡◌, IfOk};
ghost use Rattle.commands.specs.{Refusals.Refuses, Refusals.Writes, Refusals.bad_line, Refusals.missing_line, Refusals.number_of, Refusals.unread_line};

use super::status::Status;
use outside_world::Sink;
use std::alloc::{AllocError, Global};
use text_lines::push_one;

/// Which of a command's texts, in the order of its words.
///
/// docs/FORMATS.md, "Exit statuses and lines of refusal".
#[derive(Debug, Clone, Copy, PartialEq, Eq)]
pub enum TextPlace {
    /// The first, with number 1 in a line of refusal.
    First,
    /// The second, with number 2.
    Second,
    /// The third, with number 3.
    Third,
}

/// What a word can name in the texts, or the factor by which the arrivals cannot be scaled.
///
/// docs/FORMATS.md, "Exit statuses and lines of refusal".
#[derive(Debug, Clone, Copy, PartialEq, Eq)]
pub enum Named {
    /// A node of the network, by its name.
    Node,
    /// A round of the run, from 0.
    Round,
    /// A factor by which arrivals are scaled, in thousandths.
    Factor,
}

/// Why a command is refused.
///
/// docs/FORMATS.md, "Exit statuses and lines of refusal".
#[derive(Debug, Drop)]
pub enum Refusal {
    /// The words are no command.
    Usage,
    /// The text at this place is refused, with the code of what is wrong with it.
    Bad { text: TextPlace, code: Vec<u8> },
    /// All texts are read, and a word names what is not in them, or the arrivals cannot be scaled by a factor.
    Missing { what: Named },
    /// The text at this place can't be read.
    Unread { text: TextPlace },
    /// What was made can't be written.
    Unwritten,
    /// Memory ran out.
    NoMemory,
}

impl From<AllocError> for Refusal {
    ghost use Rattle.std.specs.Prelude.{◌≡◌};
    ghost use Rattle.commands.specs.declared.refusals.Refusal.TheVariants.{NoMemory};

    ghost from_gives = { λ fault e. e ≡ NoMemory };

    fn from(_: AllocError) -> Refusal {
        Refusal::NoMemory
    }
}

/// Writes the line of a refusal, or that of `NoMemory` where there is no memory for the line, and answers the status that
/// goes with it. Where the sink fails, a front of the line is written, and the status stays.
///
/// docs/FORMATS.md, "Exit statuses and lines of refusal".
pub fn refuse<E: Sink>(alloc: Global, why: Refusal, err: &mut E) -> Status
    ensures { Refuses why (E.state err.old) (E.state err.new) result }
{
    match why {
        Refusal::Usage => say(b"signal: usage\n", Status::Usage, err),
        Refusal::Missing { what } => say(missing_line(what), Status::BadInput, err),
        Refusal::Unread { text } => say(unread_line(text), Status::ReadFault, err),
        Refusal::Unwritten => say(b"signal: cannot write\n", Status::WriteFault, err),
        Refusal::NoMemory => say(b"signal: no memory\n", Status::NoMemory, err),
        Refusal::Bad { text, code } => match bad_line(alloc, text, &code) {
            Ok(line) => say(&line, Status::BadInput, err),
            Err(AllocError) => say(b"signal: no memory\n", Status::NoMemory, err),
        },
    }
}

// Writes a line, or a front of it where the sink fails, and answers the status.
fn say<E: Sink>(line: &[u8], status: Status, err: &mut E) -> Status
    ensures status { result ≡ status }
    ensures line { Writes line.now (E.state err.old) (E.state err.new) }
{
    let _ = err.put(line);
    status
}

// The line for a text that can't be read. It takes no memory.
fn unread_line(text: TextPlace) -> &'static [u8]
    ensures { result.now ≡ unread_line text }
{
    match text {
        TextPlace::First => b"signal: cannot read 1\n",
        TextPlace::Second => b"signal: cannot read 2\n",
        TextPlace::Third => b"signal: cannot read 3\n",
    }
}

// The line for a word that names nothing.
fn missing_line(what: Named) -> &'static [u8]
    ensures { result.now ≡ missing_line what }
{
    match what {
        Named::Node => b"signal: bad node\n",
        Named::Round => b"signal: bad round\n",
        Named::Factor => b"signal: bad factor\n",
    }
}

// The line for a text that is refused, with this code.
fn bad_line(alloc: Global, text: TextPlace, code: &[u8]) -> Result<Vec<u8>, AllocError>
    ensures { IfOk result (λ line. line.items ≡ bad_line text code.now) }
{
    let mut line = Vec::new(alloc);
    push_one(&mut line, b"signal: bad ", number_of(text))?;
    line.extend_from_slice(b" ")?;
    line.extend_from_slice(code)?;
    line.extend_from_slice(b"\n")?;
    Ok(line)
}

// The number of a text, from 1.
fn number_of(text: TextPlace) -> u64
    ensures { result ≡ number_of text }
{
    match text {
        TextPlace::First => 1,
        TextPlace::Second => 2,
        TextPlace::Third => 3,
    }
}
