//! The command `actuate NET ARR`.
ghost use Rattle.std.specs.Prelude.{IfOk};
ghost use Rattle.arrivals.specs.Amounts.{AreArrivals, arriving_of};
ghost use Rattle.commands.specs.Outcome.{Outcome};
ghost use Rattle.controller_jobs.specs.{Controllers.IsActuatedReport, Controllers.IsActuatedRun, Meanings.actuate_meaning};
ghost use Rattle.audit.specs.{Audits.IsClean, LineRuns.sheet_of, SheetTexts.HasShape};

use actuated::{ActRecord, act_report, run_actuated};
use arrivals::Arrivals;
use commands::Status;
use outside_world::{Shelf, Sink};
use road_net::{Network, law_of_network};
use scene_jobs::{SceneWork, scene_job};
use std::alloc::{AllocError, Global};

/// The run of a network under actuated control, with all that it keeps. `Err`: out of memory.
pub(crate) fn actuated_run(
    alloc: Global,
    net: &Network,
    arrivals: &Arrivals,
) -> Result<ActRecord, AllocError>
    requires { AreArrivals net.now arrivals.now }
    ensures kept { IfOk result (IsActuatedRun net.now (arriving_of arrivals.now)) }
    ensures shape { IfOk result (λ run. HasShape net.now (sheet_of run)) }
    ensures clean { IfOk result (λ run. IsClean net.now (arriving_of arrivals.now) (sheet_of run)) }
{
    run_actuated(alloc, net, arrivals)
}

// The report of the run under actuated control.
fn report_actuated(alloc: Global, net: &Network, arrivals: &Arrivals) -> Result<Vec<u8>, AllocError>
    requires { AreArrivals net.now arrivals.now }
    ensures { IfOk result (λ text. IsActuatedReport net.now (arriving_of arrivals.now) text.items) }
{
    law_of_network(net);
    let run = actuated_run(alloc, net, arrivals)?;
    let text = act_report(alloc, net, &run)?;
    Ok(text)
}

/// `actuate`.
#[derive(Debug, Clone, Copy, PartialEq, Eq)]
struct ActuateWork;

impl SceneWork for ActuateWork {
    ghost use Rattle.controller_jobs.specs.Controllers.{IsActuatedReport};

    ghost writes = { λ work. IsActuatedReport };

    fn write(
        &self,
        alloc: Global,
        net: &Network,
        arrivals: &Arrivals,
    ) -> Result<Vec<u8>, AllocError> {
        report_actuated(alloc, net, arrivals)
    }
}

/// The command `actuate NET ARR`: writes the report of the run under actuated control, with the network and the arrivals in the
/// files. Its greens are lawful and the network is safe under them; it has no plans and no board steps.
///
/// Each status has its cause, and each refusal writes its line to `err`, as `signal` says.
///
/// docs/FORMATS.md, "Words".
pub fn actuate_job<S: Shelf, O: Sink, E: Sink>(
    alloc: Global,
    net: &str,
    arr: &str,
    shelf: &mut S,
    out: &mut O,
    err: &mut E,
) -> Status
    ensures { Outcome (actuate_meaning net.now arr.now)
        (record { shelf = S.state shelf.old; out = O.state out.old; err = E.state err.old })
        (record { shelf = S.state shelf.new; out = O.state out.new; err = E.state err.new }) result }
{
    scene_job(alloc, &ActuateWork, net, arr, shelf, out, err)
}
