//! How a core goes on: a node does its next board step, and rounds that are over end. The core keeps the history and the plans.
ghost use Rattle.std.specs.Prelude.{◌≡◌, ℕ, ◌+◌, ◌<◌, ◌^◌, ◌++◌, ◌∷◌, [], List, IfOk, OnErr, OnOk, if◌then◌else◌, length};
ghost use Rattle.arrivals.specs.Amounts.{AreArrivals};
ghost use Rattle.intersection_actor.specs.declared.records.PlanRecord.{PlanRecord};
ghost use Rattle.net_core.specs.States as states;
ghost use Rattle.net_core.specs.States.{AreInRound, ArePlaying, HasCapacityForAll, IsGoing, IsPlaying, IsResting, WantsMore, is_busy};

use crate::parts::{Kept, Parts};
use crate::stepping::{act, begin_round, end_round};
use arrivals::Arrivals;
use intersection_actor::{Actor, Want};
use road_net::{Network, law_of_network};
use runs::empty_plans;
use schedule_meaning::Planner;
use std::alloc::{AllocError, Global};

/// What a core keeps at first: no history, and no plans, with capacity for the plans of all rounds. `Err`: out of memory.
pub(crate) fn nothing_kept(alloc: Global, net: &Network) -> Result<Kept, AllocError>
    ensures history { IfOk result (λ kept. kept.history.items ≡ []) }
    ensures plans { IfOk result (λ kept. kept.plans.items ≡ []) }
    ensures capacity { IfOk result (HasCapacityForAll net.now) }
{
    let plans = empty_plans(alloc, net)?;
    Ok(Kept {
        history: Vec::new(alloc),
        plans,
        busy: 0,
    })
}

/// How many of these actors want something.
fn busy_count(actors: &[Actor]) -> u32
    requires { length actors.now < 2 ^ 32 }
    ensures { result ≡ states.busy_count actors.now }
{
    let mut busy = 0;
    for actor in actors {
        busy += busy_of(actor.want());
    }
    busy
}

/// One where something is wanted.
fn busy_of(want: Want) -> u32
    ensures { result ≡ (if is_busy want then 1 else 0) }
{
    match want {
        Want::Done => 0,
        Want::Read(_) | Want::Commit | Want::Publish(_) => 1,
    }
}

/// The next round begins: all nodes begin it, and those that want something are counted.
pub(crate) fn open_round<P: Planner>(
    alloc: Global,
    net: &Network,
    arrivals: &Arrivals,
    parts: &mut Parts,
    kept: &mut Kept,
    planner: &mut P,
) -> Result<(), AllocError>
    requires arrivals { AreArrivals net.now arrivals.now }
    requires rests { IsResting net.now arrivals.now parts.old kept.old }
    requires round { parts.old.round < net.now.run.rounds }
    ensures playing { OnOk result (IsPlaying net.now arrivals.now parts.new kept.new) }
    ensures history { kept.new.history ≡ kept.old.history }
    ensures round { parts.new.round ≡ parts.old.round }
{
    law_of_network(net);
    begin_round(alloc, net, arrivals, parts, planner)?;
    kept.busy = busy_count(parts.actors.all.as_slice());
    Ok(())
}

/// The round is over: the world moves on, and what the nodes have planned goes to the plans of the core.
fn close_round(net: &Network, arrivals: &Arrivals, parts: &mut Parts, kept: &mut Kept)
    requires arrivals { AreArrivals net.now arrivals.now }
    requires playing { IsPlaying net.now arrivals.now parts.old kept.old }
    requires none { kept.old.busy ≡ 0 }
    ensures rests { IsResting net.now arrivals.now parts.new kept.new }
    ensures history { kept.new.history ≡ kept.old.history }
    ensures round { parts.new.round ≡ parts.old.round + 1 }
{
    end_round(net, arrivals, parts, &mut kept.plans);
}

/// Ends the rounds that are over and begins the next ones, until a node wants something or all rounds are done.
pub(crate) fn go_on<P: Planner>(
    alloc: Global,
    net: &Network,
    arrivals: &Arrivals,
    parts: &mut Parts,
    kept: &mut Kept,
    planner: &mut P,
) -> Result<(), AllocError>
    requires arrivals { AreArrivals net.now arrivals.now }
    requires playing { IsPlaying net.now arrivals.now parts.old kept.old }
    ensures going { OnOk result (IsGoing net.now arrivals.now parts.new kept.new) }
    ensures history { kept.new.history ≡ kept.old.history }
{
    'rounds: while kept.busy == 0 {
        close_round(net, arrivals, parts, kept);
        if parts.round == net.run().rounds {
            return Ok(());
        }
        open_round(alloc, net, arrivals, parts, kept, planner)?;
    }
    Ok(())
}

/// The node does its next board step, and those that want something are counted.
fn act_counted<P: Planner>(
    alloc: Global,
    net: &Network,
    arrivals: &Arrivals,
    node: u32,
    parts: &mut Parts,
    busy: &mut u32,
    planner: &mut P,
) -> Result<(), AllocError>
    requires playing { ArePlaying net.now arrivals.now parts.old }
    requires node { node < length net.now.node_names }
    requires want { WantsMore parts.old node }
    requires busy { busy.old ≡ states.busy_count parts.old.actors.all.items }
    ensures after { (history : List ℕ) (plans : List PlanRecord)
        → AreInRound net.now arrivals.now history plans parts.old
        → OnOk result (AreInRound net.now arrivals.now (history ++ node ∷ []) plans parts.new) }
    ensures busy { OnOk result (busy.new ≡ states.busy_count parts.new.actors.all.items) }
{
    act(alloc, net, arrivals, node, parts, planner)?;
    let now = busy_of(parts.actors.all[node as usize].want());
    *busy = *busy - 1 + now;
    Ok(())
}

/// The node does its next board step, and the history is one longer; then rounds that are over end and the next ones begin. Where
/// memory runs out, the history stays.
pub(crate) fn play<P: Planner>(
    alloc: Global,
    net: &Network,
    arrivals: &Arrivals,
    node: u32,
    parts: &mut Parts,
    kept: &mut Kept,
    planner: &mut P,
) -> Result<(), AllocError>
    requires arrivals { AreArrivals net.now arrivals.now }
    requires playing { IsPlaying net.now arrivals.now parts.old kept.old }
    requires node { node < length net.now.node_names }
    requires want { WantsMore parts.old node }
    ensures going { OnOk result (IsGoing net.now arrivals.now parts.new kept.new) }
    ensures history { OnOk result (kept.new.history.items ≡ kept.old.history.items ++ node ∷ []) }
    ensures refused { OnErr result (kept.new.history.items ≡ kept.old.history.items) }
{
    kept.history.reserve(1)?;
    act_counted(alloc, net, arrivals, node, parts, &mut kept.busy, planner)?;
    let before = kept.history.len();
    kept.history.push_reserved(node);
    match go_on(alloc, net, arrivals, parts, kept, planner) {
        Ok(()) => Ok(()),
        Err(error) => {
            kept.history.truncate(before);
            Err(error)
        }
    }
}
