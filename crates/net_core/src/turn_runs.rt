//! The run of the turn order, of which neither the history nor the plans are kept.
ghost use Rattle.std.specs.Prelude.{◌≡◌, ℕ, ◌+◌, ◌*◌, ◌<◌, ◌++◌, List, IfOk, OnOk, length, replicate};
ghost use Rattle.arrivals.specs.Amounts.{AreArrivals, arriving_of};
ghost use Rattle.histories.specs.{Histories.turns, Steps.board_steps};
ghost use Rattle.intersection_actor.specs.declared.records.PlanRecord.{PlanRecord};
ghost use Rattle.net_core.specs.{States.AllDone, States.AreAtFirst, States.AreBetween, States.AreInRound, States.ArePlaying, States.AreResting, States.AreTurned, States.IsAtTurn, States.IsBlank, States.IsUnbegun, TurnRuns.AreOfTurns};

use crate::first_parts::parts_of;
use crate::parts::Parts;
use crate::stepping::{act, begin_round, end_round};
use arrivals::Arrivals;
use histories::step_count;
use intersection_actor::PlanRecord;
use road_net::{Network, law_of_network};
use runs::{PlanTally, RunTotals, empty_record, law_of_runs, totals_of};
use schedule_meaning::Planner;
use std::alloc::{AllocError, Global};

/// The node does all its board steps of the round.
fn play_node<P: Planner>(
    alloc: Global,
    net: &Network,
    arrivals: &Arrivals,
    node: u32,
    parts: &mut Parts,
    planner: &mut P,
) -> Result<(), AllocError>
    requires turn { IsAtTurn net.now arrivals.now node parts.old }
    requires node { node < length net.now.node_names }
    ensures played { (history : List ℕ) (plans : List PlanRecord)
        → IsUnbegun net.now arrivals.now node history plans parts.old → OnOk result (AreInRound net.now arrivals.now
        (history ++ replicate (length (board_steps net.now node)) node) plans parts.new) }
    ensures round { parts.new.round ≡ parts.old.round }
{
    law_of_network(net);
    for step in 0..step_count(net, node) {
        act(alloc, net, arrivals, node, parts, planner)?;
    }
    Ok(())
}

/// A round of the turn order: the nodes do all their board steps in number order.
fn play_round<P: Planner>(
    alloc: Global,
    net: &Network,
    arrivals: &Arrivals,
    parts: &mut Parts,
    planner: &mut P,
) -> Result<(), AllocError>
    requires arrivals { AreArrivals net.now arrivals.now }
    requires resting { AreResting net.now arrivals.now parts.old }
    requires round { parts.old.round < net.now.run.rounds }
    ensures played { (history : List ℕ) (plans : List PlanRecord)
        → AreBetween net.now arrivals.now history plans parts.old → OnOk result (AreInRound net.now arrivals.now
        (history ++ turns (board_steps net.now) (length net.now.node_names)) plans parts.new) }
    ensures done { OnOk result (AllDone parts.new.actors.all.items) }
    ensures round { parts.new.round ≡ parts.old.round }
{
    law_of_network(net);
    begin_round(alloc, net, arrivals, parts, planner)?;
    for node in 0..net.nodes() {
        play_node(alloc, net, arrivals, node, parts, planner)?;
    }
    Ok(())
}

/// A round of the turn order, of which the plans are counted and dropped.
fn count_round<P: Planner>(
    alloc: Global,
    net: &Network,
    arrivals: &Arrivals,
    parts: &mut Parts,
    planned: &mut Vec<PlanRecord>,
    tally: &mut PlanTally,
    planner: &mut P,
) -> Result<(), AllocError>
    requires arrivals { AreArrivals net.now arrivals.now }
    requires turned { AreTurned net.now arrivals.now parts.old.round parts.old tally.old }
    requires round { parts.old.round < net.now.run.rounds }
    requires blank { IsBlank net.now planned.old }
    ensures turned { OnOk result (AreTurned net.now arrivals.now (parts.old.round + 1) parts.new tally.new) }
    ensures blank { OnOk result (IsBlank net.now planned.new) }
{
    law_of_network(net);
    play_round(alloc, net, arrivals, parts, planner)?;
    end_round(net, arrivals, parts, planned);
    tally.add(planned.as_slice());
    planned.clear();
    Ok(())
}

/// All rounds of the turn order.
fn play_turns<P: Planner>(
    alloc: Global,
    net: &Network,
    arrivals: &Arrivals,
    parts: &mut Parts,
    planner: &mut P,
) -> Result<PlanTally, AllocError>
    requires arrivals { AreArrivals net.now arrivals.now }
    requires first { AreAtFirst net.now arrivals.now parts.old }
    ensures { IfOk result (AreTurned net.now arrivals.now net.now.run.rounds parts.new) }
{
    let mut planned = Vec::with_capacity(alloc, net.nodes() as usize)?;
    let mut tally = PlanTally::of_none();
    for round in 0..net.run().rounds {
        count_round(
            alloc,
            net,
            arrivals,
            parts,
            &mut planned,
            &mut tally,
            planner,
        )?;
    }
    Ok(tally)
}

/// What the run of the turn order leaves, and what is counted of its plans: neither they nor the history are kept, so memory grows
/// with the rounds by the timelines alone. The arrivals are those of the network.
///
/// `Err`: out of memory.
///
/// docs/RULES.md, "Run".
pub fn totals_of_turns<P: Planner>(
    alloc: Global,
    net: &Network,
    arrivals: &Arrivals,
    planner: &mut P,
) -> Result<(RunTotals, PlanTally), AllocError>
    requires { AreArrivals net.now arrivals.now }
    ensures { IfOk result (λ made. AreOfTurns net.now (arriving_of arrivals.now) made.0 made.1) }
{
    law_of_network(net);
    law_of_runs(net);
    let empty = empty_record(alloc, net)?;
    let mut parts = parts_of(alloc, net)?;
    let tally = play_turns(alloc, net, arrivals, &mut parts, planner)?;
    let Parts { actors, world, .. } = parts;
    Ok((totals_of(net, actors, &world, empty), tally))
}
