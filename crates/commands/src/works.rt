//! Commands as values: what a command means, what it makes of its texts, and how it ends.
ghost use Rattle.commands.specs.Outcome.{Outcome};

use crate::{Made, Refusal, Status, end};
use outside_world::{Shelf, Sink};
use std::alloc::Global;

/// A command with its words, as a value.
///
/// docs/FORMATS.md, "Words".
pub trait Work {
    ghost use Rattle.commands.specs.{Ending.Makes, Meanings.Meaning};

    /// What the command means.
    ghost means: { Self → Meaning };

    /// What the command makes of its texts, which it fetches from the shelf.
    ///
    /// `Err`: why it makes nothing.
    fn make<S: Shelf>(&self, alloc: Global, shelf: &mut S) -> Result<Made, Refusal>
        ensures { Makes (means self.now) (S.state shelf.old) (S.state shelf.new) result };
}

/// Does what a command says, and answers how it ended.
///
/// docs/FORMATS.md, "Exit statuses and lines of refusal".
pub fn job<W: Work, S: Shelf, O: Sink, E: Sink>(
    alloc: Global,
    work: &W,
    shelf: &mut S,
    out: &mut O,
    err: &mut E,
) -> Status
    ensures { Outcome (W.means work.now)
        (record { shelf = S.state shelf.old; out = O.state out.old; err = E.state err.old })
        (record { shelf = S.state shelf.new; out = O.state out.new; err = E.state err.new }) result }
{
    end(alloc, work.make(alloc, shelf), out, err)
}
