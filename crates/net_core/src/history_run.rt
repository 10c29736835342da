//! The run of a history that is given.
ghost use Rattle.std.specs.Prelude.{◌≡◌, IfOk};
ghost use Rattle.arrivals.specs.Amounts.{AreArrivals, arriving_of};
ghost use Rattle.histories.specs.Histories.{IsLawful};
ghost use Rattle.net_core.specs.declared.faults.StepFault.{StepFault};
ghost use Rattle.runs.specs.Promises.{IsKeptRun};

use crate::cores::Core;
use crate::faults::StepFault;
use arrivals::Arrivals;
use histories::{History, law_of_histories};
use road_net::{Network, law_of_network};
use runs::RunRecord;
use schedule_meaning::Planner;
use std::alloc::{AllocError, Global};

/// The run of a lawful history: the nodes do their board steps in just its order. The arrivals are those of the network.
///
/// `Err`: out of memory.
///
/// docs/RULES.md, "Run".
pub fn run<P: Planner>(
    alloc: Global,
    net: &Network,
    arrivals: &Arrivals,
    h: &History,
    planner: &mut P,
) -> Result<RunRecord, AllocError>
    requires arrivals { AreArrivals net.now arrivals.now }
    requires lawful { IsLawful net.now h.now }
    ensures { IfOk result (IsKeptRun net.now (arriving_of arrivals.now) h.now) }
{
    law_of_network(net);
    law_of_histories(net);
    let mut core = Core::start(alloc, net, arrivals, planner)?;
    let steps = h.steps();
    for node in steps {
        match core.step(alloc, *node, planner) {
            Ok(()) => {}
            Err(fault) => return Err(out_of_memory(fault)),
        }
    }
    Ok(core.finish())
}

/// The fault of a step that may be done: memory ran out.
fn out_of_memory(fault: StepFault) -> AllocError
    requires { fault ≡ StepFault.NoMemory }
{
    match fault {
        StepFault::NoMemory => AllocError,
        StepFault::UnknownNode | StepFault::Spent | StepFault::Over | StepFault::NotItsTurn => {
            unreachable!()
        }
    }
}
