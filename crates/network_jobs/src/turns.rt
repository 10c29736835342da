//! The command `turns NET ARR`.
ghost use Rattle.commands.specs.Outcome.{Outcome};
ghost use Rattle.network_jobs.specs.Meanings.{turns_meaning};

use crate::history_runs::report;
use arrivals::Arrivals;
use commands::Status;
use histories::turn_order;
use outside_world::{Shelf, Sink};
use road_net::Network;
use scene_jobs::{SceneWork, scene_job};
use std::alloc::{AllocError, Global};

/// `turns`.
#[derive(Debug, Clone, Copy, PartialEq, Eq)]
struct TurnsWork;

impl SceneWork for TurnsWork {
    ghost use Rattle.histories.specs.Histories as histories;
    ghost use Rattle.network_jobs.specs.Headline.{Headline};

    ghost writes = { λ work net arriving bytes. Headline net arriving (histories.turn_order net) bytes };

    // The report of the run of the turn order.
    fn write(
        &self,
        alloc: Global,
        net: &Network,
        arrivals: &Arrivals,
    ) -> Result<Vec<u8>, AllocError> {
        let history = turn_order(alloc, net)?;
        report(alloc, net, arrivals, &history)
    }
}

/// The command `turns NET ARR`: writes the report of the run of the turn order, with the network and the arrivals in the files. In
/// it all is kept that is promised of runs.
///
/// Each status has its cause, and each refusal writes its line to `err`, as `signal` says.
///
/// docs/FORMATS.md, "Words".
pub fn turns_job<S: Shelf, O: Sink, E: Sink>(
    alloc: Global,
    net: &str,
    arr: &str,
    shelf: &mut S,
    out: &mut O,
    err: &mut E,
) -> Status
    ensures { Outcome (turns_meaning net.now arr.now)
        (record { shelf = S.state shelf.old; out = O.state out.old; err = E.state err.old })
        (record { shelf = S.state shelf.new; out = O.state out.new; err = E.state err.new }) result }
{
    scene_job(alloc, &TurnsWork, net, arr, shelf, out, err)
}
