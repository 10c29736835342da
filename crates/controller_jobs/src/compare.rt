//! The command `compare NET ARR`.
ghost use Rattle.std.specs.Prelude.{IfOk};
ghost use Rattle.arrivals.specs.Amounts.{AreArrivals, arriving_of};
ghost use Rattle.commands.specs.Outcome.{Outcome};
ghost use Rattle.controller_jobs.specs.{Controllers.AreActuatedTotals, Controllers.ArePlannedTotals, Controllers.IsComparison, Meanings.compare_meaning};

use super::actuate::actuated_run;
use arrivals::Arrivals;
use bounded_runs::{push_totals, turn_totals};
use commands::Status;
use net_simulator::Totals;
use outside_world::{Shelf, Sink};
use road_net::Network;
use scene_jobs::{SceneWork, scene_job};
use std::alloc::{AllocError, Global};

/// The totals of the run of the turn order. `Err`: out of memory.
pub(crate) fn planned_totals(
    alloc: Global,
    net: &Network,
    arrivals: &Arrivals,
) -> Result<Totals, AllocError>
    requires { AreArrivals net.now arrivals.now }
    ensures { IfOk result (ArePlannedTotals net.now (arriving_of arrivals.now)) }
{
    let (left, _) = turn_totals(alloc, net, arrivals)?;
    Ok(left.totals)
}

/// The totals of the run under actuated control. `Err`: out of memory.
pub(crate) fn actuated_totals(
    alloc: Global,
    net: &Network,
    arrivals: &Arrivals,
) -> Result<Totals, AllocError>
    requires { AreArrivals net.now arrivals.now }
    ensures { IfOk result (AreActuatedTotals net.now (arriving_of arrivals.now)) }
{
    let run = actuated_run(alloc, net, arrivals)?;
    Ok(run.totals)
}

/// The totals of both runs. The first leaves nothing in memory when the second begins. `Err`: out of memory.
pub(crate) fn comparison(
    alloc: Global,
    net: &Network,
    arrivals: &Arrivals,
) -> Result<Vec<u8>, AllocError>
    requires { AreArrivals net.now arrivals.now }
    ensures { IfOk result (λ text. IsComparison net.now (arriving_of arrivals.now) text.items) }
{
    let of_plans = planned_totals(alloc, net, arrivals)?;
    let of_calls = actuated_totals(alloc, net, arrivals)?;
    let mut text = Vec::new(alloc);
    push_totals(&mut text, b"planned", &of_plans)?;
    push_totals(&mut text, b"actuated", &of_calls)?;
    Ok(text)
}

/// `compare NET ARR`.
#[derive(Debug, Clone, Copy, PartialEq, Eq)]
struct CompareWork;

impl SceneWork for CompareWork {
    ghost use Rattle.controller_jobs.specs.Controllers.{IsComparison};

    ghost writes = { λ work. IsComparison };

    fn write(
        &self,
        alloc: Global,
        net: &Network,
        arrivals: &Arrivals,
    ) -> Result<Vec<u8>, AllocError> {
        comparison(alloc, net, arrivals)
    }
}

/// The command `compare NET ARR`: writes what the run of the turn order counts in all, and what that under actuated control
/// counts, with the network and the arrivals in the files. It says nothing of which makes less delay.
///
/// Each status has its cause, and each refusal writes its line to `err`, as `signal` says.
///
/// docs/FORMATS.md, "Words".
pub fn compare_job<S: Shelf, O: Sink, E: Sink>(
    alloc: Global,
    net: &str,
    arr: &str,
    shelf: &mut S,
    out: &mut O,
    err: &mut E,
) -> Status
    ensures { Outcome (compare_meaning net.now arr.now)
        (record { shelf = S.state shelf.old; out = O.state out.old; err = E.state err.old })
        (record { shelf = S.state shelf.new; out = O.state out.new; err = E.state err.new }) result }
{
    scene_job(alloc, &CompareWork, net, arr, shelf, out, err)
}
