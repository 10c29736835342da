//! The run of a history, planned by the bounded table, with all that it keeps; and what that of the turn order leaves where its plans
//! are not kept.
ghost use Rattle.std.specs.Prelude.{IfOk};
ghost use Rattle.arrivals.specs.Amounts.{AreArrivals, arriving_of};
ghost use Rattle.histories.specs.Histories.{IsLawful};
ghost use Rattle.runs.specs.Complete.{IsComplete};
ghost use Rattle.bounded_runs.specs.Runs.{AreTurnTotals, IsRunOf};

use arrivals::Arrivals;
use histories::History;
use net_core::{run, totals_of_turns};
use pruned_dp::BoundPlanner;
use road_net::Network;
use runs::{PlanTally, RunRecord, RunTotals, law_of_runs};
use std::alloc::{AllocError, Global};

/// The run of a lawful history, with all that it keeps. `Err`: out of memory.
///
/// docs/RULES.md, "Run".
pub fn kept_run(
    alloc: Global,
    net: &Network,
    arrivals: &Arrivals,
    h: &History,
) -> Result<RunRecord, AllocError>
    requires arrivals { AreArrivals net.now arrivals.now }
    requires lawful { IsLawful net.now h.now }
    ensures kept { IfOk result (IsRunOf net.now (arriving_of arrivals.now) h.now) }
    ensures whole { IfOk result (IsComplete net.now) }
{
    law_of_runs(net);
    run(alloc, net, arrivals, h, &mut BoundPlanner::new(alloc))
}

/// What the run of the turn order leaves, and what is counted of its plans, which are not kept. `Err`: out of memory.
///
/// docs/RULES.md, "Run".
pub fn turn_totals(
    alloc: Global,
    net: &Network,
    arrivals: &Arrivals,
) -> Result<(RunTotals, PlanTally), AllocError>
    requires { AreArrivals net.now arrivals.now }
    ensures { IfOk result (λ made. AreTurnTotals net.now (arriving_of arrivals.now) made.0 made.1) }
{
    totals_of_turns(alloc, net, arrivals, &mut BoundPlanner::new(alloc))
}
