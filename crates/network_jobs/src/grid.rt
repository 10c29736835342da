//! The command `grid NUMBER SIDE ROUNDS`.
ghost use Rattle.std.specs.Prelude.{IfOk};
ghost use Rattle.outside_world.specs.Shelf.{ShelfState};
ghost use Rattle.scenario_gen.specs.{Grids.AreRounds, Layout.IsSide};
ghost use Rattle.commands.specs.{Ending.Makes, Outcome.Outcome};
ghost use Rattle.network_jobs.specs.{Headline.IsGridSummary, Meanings.grid_meaning};

use super::summary::summary;
use bounded_runs::turn_totals;
use commands::{Made, Refusal, Status, end};
use outside_world::Sink;
use scenario_gen::grid;
use std::alloc::{AllocError, Global};

// The summary of the run of the turn order on the grid of a number.
fn summary_of_grid(
    alloc: Global,
    number: u64,
    side: u32,
    rounds: u32,
) -> Result<Vec<u8>, AllocError>
    requires side { IsSide side }
    requires rounds { AreRounds rounds }
    ensures { IfOk result (λ text. IsGridSummary number side rounds text.items) }
{
    let (network, arrivals) = grid(alloc, number, side, rounds)?;
    let (left, tally) = turn_totals(alloc, &network, &arrivals)?;
    summary(alloc, number, side, rounds, &tally, &left.totals)
}

// Wraps `summary_of_grid` as a command's result; reads no file.
fn make_summary(alloc: Global, number: u64, side: u32, rounds: u32) -> Result<Made, Refusal>
    requires side { IsSide side }
    requires rounds { AreRounds rounds }
    ensures { (shelf : ShelfState) → Makes (grid_meaning number side rounds) shelf shelf result }
{
    let text = summary_of_grid(alloc, number, side, rounds)?;
    Ok(Made::Done(text))
}

/// The command `grid NUMBER SIDE ROUNDS`: writes the summary of the run of the turn order on the grid of a number, with 2 to 8
/// nodes a side and for 1 to 600 rounds. It reads no text.
///
/// Each status has its cause, and each refusal writes its line to `err`, as `signal` says.
///
/// docs/FORMATS.md, "Words".
pub fn grid_job<O: Sink, E: Sink>(
    alloc: Global,
    number: u64,
    side: u32,
    rounds: u32,
    out: &mut O,
    err: &mut E,
) -> Status
    requires side { IsSide side }
    requires rounds { AreRounds rounds }
    ensures { (shelf : ShelfState) → Outcome (grid_meaning number side rounds)
        (record { shelf = shelf; out = O.state out.old; err = E.state err.old })
        (record { shelf = shelf; out = O.state out.new; err = E.state err.new }) result }
{
    end(alloc, make_summary(alloc, number, side, rounds), out, err)
}
