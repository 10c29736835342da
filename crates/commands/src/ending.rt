//! How what a command made, or why it made nothing, is answered.
ghost use Rattle.commands.specs.Ending.{Ends};

use crate::{Refusal, Status, refuse};
use outside_world::Sink;
use std::alloc::Global;

/// What a command made.
///
/// docs/FORMATS.md, "Exit statuses and lines of refusal".
#[derive(Drop)]
pub enum Made {
    /// The work is done, and this is to be written.
    Done(Vec<u8>),
    /// The verdict goes against the texts, and this is to be written.
    Rejected(Vec<u8>),
}

/// Writes what a command made, or why it made nothing, and answers how it ended. Where a put fails, a front of what was made is
/// written, and nothing after it.
///
/// docs/FORMATS.md, "Exit statuses and lines of refusal".
pub fn end<O: Sink, E: Sink>(
    alloc: Global,
    made: Result<Made, Refusal>,
    out: &mut O,
    err: &mut E,
) -> Status
    ensures { Ends made (O.state out.old) (O.state out.new) (E.state err.old) (E.state err.new) result }
{
    match made {
        Ok(Made::Done(text)) => match out.put(&text) {
            Ok(()) => Status::Done,
            Err(_) => refuse(alloc, Refusal::Unwritten, err),
        },
        Ok(Made::Rejected(text)) => match out.put(&text) {
            Ok(()) => Status::Rejected,
            Err(_) => refuse(alloc, Refusal::Unwritten, err),
        },
        Err(why) => refuse(alloc, why, err),
    }
}
