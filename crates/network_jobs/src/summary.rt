//! The summary of a run.
ghost use Rattle.std.specs.Prelude.{◌≡◌, ◌≤◌, IfOk};
ghost use Rattle.network_jobs.specs.Summary.{summary_lines};
ghost use Rattle.runs.specs.Tallies.{IsTally};

use bounded_runs::push_totals;
use net_simulator::Totals;
use runs::PlanTally;
use std::alloc::{AllocError, Global};
use text_lines::push_line;

/// The summary of a run on the grid of a number, with `side` nodes a side and for `rounds` rounds, of whose plans this is counted.
/// `Err`: out of memory.
pub fn summary(
    alloc: Global,
    number: u64,
    side: u32,
    rounds: u32,
    tally: &PlanTally,
    totals: &Totals,
) -> Result<Vec<u8>, AllocError>
    requires few { tally.now.plans ≤ 38400 }
    requires bounds { IsTally tally.now }
    ensures { IfOk result (λ text. text.items ≡ summary_lines number side rounds tally.now totals.now) }
{
    let mut text = Vec::new(alloc);
    push_line(
        &mut text,
        b"grid",
        &[number, u64::from(side), u64::from(rounds)],
    )?;
    push_line(&mut text, b"plans", &[tally.plans])?;
    push_line(&mut text, b"none", &[tally.none])?;
    push_line(&mut text, b"delay", &[tally.delay as u64])?;
    push_totals(&mut text, b"total", totals)?;
    Ok(text)
}
