//! How the rounds of a run begin and end, and how a node does its next board step. Neither keeps the history or the plans.
ghost use Rattle.std.specs.Prelude.{◌≡◌, ℕ, ◌+◌, ◌<◌, ◌≤◌, ◌++◌, ◌∷◌, [], ◌↔◌, All, List, IsTrue, OnOk, length, vec_capacity, vec_len};
ghost use Rattle.arrivals.specs.Amounts.{AreArrivals};
ghost use Rattle.intersection_actor.specs.declared.records.PlanRecord.{PlanRecord};
ghost use Rattle.net_core.specs.{States.AllDone, States.AreBeginning, States.AreBetween, States.AreInRound, States.ArePlaying, States.AreResting, States.AreStarting, States.HasChanged, States.Wants, States.WantsMore};
ghost use Rattle.runs.specs.Ending.{records_in};
ghost use Rattle.schedule_meaning.specs.Best.{IsLeast};

use crate::acts::{begin, read, tell};
use crate::parts::Parts;
use arrivals::Arrivals;
use intersection_actor::{PlanRecord, Want};
use road_net::{Network, law_of_network};
use schedule_meaning::Planner;
use std::alloc::{AllocError, Global};

/// A node begins the round.
fn begin_node<P: Planner>(
    alloc: Global,
    net: &Network,
    arrivals: &Arrivals,
    node: u32,
    parts: &mut Parts,
    planner: &mut P,
) -> Result<(), AllocError>
    requires arrivals { AreArrivals net.now arrivals.now }
    requires begins { AreStarting net.now arrivals.now parts.old node }
    requires node { node < length net.now.node_names }
    ensures begins { (history : List ℕ) (plans : List PlanRecord)
        → AreBeginning net.now arrivals.now history plans parts.old node
        → OnOk result (AreBeginning net.now arrivals.now history plans parts.new (node + 1)) }
    ensures round { parts.new.round ≡ parts.old.round }
{
    law_of_network(net);
    begin(
        alloc,
        net,
        &parts.world,
        parts.round,
        node,
        &mut parts.actors.all[node as usize],
        planner,
    )
}

/// All nodes begin the round.
pub(crate) fn begin_round<P: Planner>(
    alloc: Global,
    net: &Network,
    arrivals: &Arrivals,
    parts: &mut Parts,
    planner: &mut P,
) -> Result<(), AllocError>
    requires arrivals { AreArrivals net.now arrivals.now }
    requires resting { AreResting net.now arrivals.now parts.old }
    requires round { parts.old.round < net.now.run.rounds }
    ensures in_round { (history : List ℕ) (plans : List PlanRecord)
        → AreBetween net.now arrivals.now history plans parts.old
        → OnOk result (AreInRound net.now arrivals.now history plans parts.new) }
    ensures round { parts.new.round ≡ parts.old.round }
{
    for node in 0..net.nodes() {
        begin_node(alloc, net, arrivals, node, parts, planner)?;
    }
    Ok(())
}

/// The round is over: the world moves on, and what the nodes have planned goes to the end of these plans.
pub(crate) fn end_round(
    net: &Network,
    arrivals: &Arrivals,
    parts: &mut Parts,
    plans: &mut Vec<PlanRecord>,
)
    requires arrivals { AreArrivals net.now arrivals.now }
    requires playing { ArePlaying net.now arrivals.now parts.old }
    requires done { AllDone parts.old.actors.all.items }
    requires capacity { vec_len plans.old + length net.now.node_names ≤ vec_capacity plans.old }
    ensures between { (history : List ℕ) (planned : List PlanRecord)
        → AreInRound net.now arrivals.now history planned parts.old
        → AreBetween net.now arrivals.now history (planned ++ records_in parts.old.actors.all.items) parts.new }
    ensures plans { plans.new.items ≡ plans.old.items ++ records_in parts.old.actors.all.items }
    ensures capacity { vec_capacity plans.old ≤ vec_capacity plans.new }
    ensures count { length (records_in parts.old.actors.all.items) ≡ length net.now.node_names }
    ensures least { All (λ plan. IsLeast plan.instance plan.answer) (records_in parts.old.actors.all.items) }
    ensures round { parts.new.round ≡ parts.old.round + 1 }
{
    let step = net.run().step;
    parts.world.advance(net, &parts.actors, arrivals, step);
    parts.actors.move_records(plans);
    parts.round += 1;
}

/// Whether nothing is wanted.
pub(crate) fn is_done(want: Want) -> bool
    ensures { IsTrue result ↔ (want ≡ Want.Done) }
{
    match want {
        Want::Done => true,
        Want::Read(_) | Want::Commit | Want::Publish(_) => false,
    }
}

/// The node reads the board of this link, which it wants to read.
fn read_board<P: Planner>(
    alloc: Global,
    net: &Network,
    arrivals: &Arrivals,
    node: u32,
    link: u32,
    parts: &mut Parts,
    planner: &mut P,
) -> Result<(), AllocError>
    requires playing { ArePlaying net.now arrivals.now parts.old }
    requires node { node < length net.now.node_names }
    requires want { Wants parts.old node (Want.Read link) }
    ensures after { (history : List ℕ) (plans : List PlanRecord)
        → AreInRound net.now arrivals.now history plans parts.old
        → OnOk result (AreInRound net.now arrivals.now (history ++ node ∷ []) plans parts.new) }
    ensures one { HasChanged node parts.old.actors.all.items parts.new.actors.all.items }
    ensures round { parts.new.round ≡ parts.old.round }
{
    law_of_network(net);
    read(
        alloc,
        net,
        link,
        &parts.boards[link as usize],
        &mut parts.actors.all[node as usize],
        planner,
    )
}

/// The node publishes on the board of this link, on which it wants to.
fn tell_board(
    alloc: Global,
    net: &Network,
    arrivals: &Arrivals,
    node: u32,
    link: u32,
    parts: &mut Parts,
) -> Result<(), AllocError>
    requires playing { ArePlaying net.now arrivals.now parts.old }
    requires node { node < length net.now.node_names }
    requires want { Wants parts.old node (Want.Publish link) }
    ensures after { (history : List ℕ) (plans : List PlanRecord)
        → AreInRound net.now arrivals.now history plans parts.old
        → OnOk result (AreInRound net.now arrivals.now (history ++ node ∷ []) plans parts.new) }
    ensures one { HasChanged node parts.old.actors.all.items parts.new.actors.all.items }
    ensures round { parts.new.round ≡ parts.old.round }
{
    law_of_network(net);
    tell(
        alloc,
        net,
        link,
        &mut parts.boards[link as usize],
        &mut parts.actors.all[node as usize],
    )
}

/// The node does its next board step.
pub(crate) fn act<P: Planner>(
    alloc: Global,
    net: &Network,
    arrivals: &Arrivals,
    node: u32,
    parts: &mut Parts,
    planner: &mut P,
) -> Result<(), AllocError>
    requires playing { ArePlaying net.now arrivals.now parts.old }
    requires node { node < length net.now.node_names }
    requires want { WantsMore parts.old node }
    ensures after { (history : List ℕ) (plans : List PlanRecord)
        → AreInRound net.now arrivals.now history plans parts.old
        → OnOk result (AreInRound net.now arrivals.now (history ++ node ∷ []) plans parts.new) }
    ensures one { HasChanged node parts.old.actors.all.items parts.new.actors.all.items }
    ensures round { parts.new.round ≡ parts.old.round }
{
    match parts.actors.all[node as usize].want() {
        Want::Read(link) => read_board(alloc, net, arrivals, node, link, parts, planner),
        Want::Publish(link) => tell_board(alloc, net, arrivals, node, link, parts),
        Want::Commit | Want::Done => unreachable!(),
    }
}
