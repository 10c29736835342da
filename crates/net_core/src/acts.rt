//! What one node does: it begins a round, reads and publishes; and it plans as soon as it has read all.
ghost use Rattle.std.specs.Prelude.{◌≡◌, ℕ, ◌+◌, ◌*◌, ◌<◌, ◌≤◌, List, OnOk, length};
ghost use Rattle.clusters.specs.Windows.{counts_of};
ghost use Rattle.control_flow.specs.{Greens.end_of, declared.greens.Green.Green};
ghost use Rattle.intersection_actor.specs.{Acting.begun, Acting.reading, Acting.tells_from, Acting.with_heard, Rounds.IsOf};
ghost use Rattle.net_parts.specs.Limits.{most_rounds};
ghost use Rattle.net_core.specs.Acts.{HasTold, Settles};
ghost use Rattle.net_simulator.specs.{Flow.cumulative_under, Senses.sense, Worlds.IsWorldOf, Worlds.Stands, Worlds.signs_by};
ghost use Rattle.outflow.specs.Outflow.{departures, told_forecast};
ghost use Rattle.road_net.specs.Network.{heard_links};

use crate::parts::Board;
use crate::stepping::is_done;
use board_model::Heard;
use intersection_actor::{Actor, Want};
use net_simulator::World;
use road_net::Network;
use schedule_meaning::Planner;
use std::alloc::{AllocError, Global};

/// Plans, where the node has read all.
fn settle<P: Planner>(
    alloc: Global,
    net: &Network,
    actor: &mut Actor,
    planner: &mut P,
) -> Result<(), AllocError>
    requires of { IsOf net.now actor.old }
    ensures settles { OnOk result (Settles net.now actor.old.want actor.old actor.new) }
    ensures of { IsOf net.now actor.new }
{
    match actor.want() {
        Want::Commit => actor.commit(alloc, net, planner),
        Want::Read(_) | Want::Publish(_) | Want::Done => Ok(()),
    }
}

/// The node begins a round: it senses the world, and plans where it has nothing to read.
pub(crate) fn begin<P: Planner>(
    alloc: Global,
    net: &Network,
    world: &World,
    round: u32,
    node: u32,
    actor: &mut Actor,
    planner: &mut P,
) -> Result<(), AllocError>
    requires of { IsOf net.now actor.old }
    requires node { actor.old.node ≡ node }
    requires want { actor.old.want ≡ Want.Done }
    requires round { round < net.now.run.rounds }
    requires second { world.now.second ≡ round * net.now.run.step }
    requires ahead { world.now.second < end_of actor.old.line }
    requires world { IsWorldOf net.now world.now }
    ensures begun { (arriving : ℕ → ℕ → ℕ) (lines : ℕ → List Green)
        → Stands net.now arriving (signs_by lines) world.now
        → OnOk result (Settles net.now (reading (heard_links net.now actor.old.node))
        (begun net.now round
        (sense net.now (cumulative_under net.now arriving (signs_by lines) world.now.second) world.now.second node)
        actor.old) actor.new) }
    ensures of { IsOf net.now actor.new }
{
    let spare = actor.take_spare(alloc);
    let sensed = world.sense_again(alloc, net, node, spare)?;
    actor.begin(alloc, net, round, sensed)?;
    settle(alloc, net, actor, planner)
}

/// The node reads the board of the link that it wants to read, and plans once it has read all.
pub(crate) fn read<P: Planner>(
    alloc: Global,
    net: &Network,
    link: u32,
    board: &Board,
    actor: &mut Actor,
    planner: &mut P,
) -> Result<(), AllocError>
    requires of { IsOf net.now actor.old }
    requires want { actor.old.want ≡ Want.Read link }
    ensures read { let mid = with_heard
        (record { link = link; version = board.now.version; forecast = board.now.forecast }) actor.old in
        OnOk result (Settles net.now mid.want mid actor.new) }
    ensures of { IsOf net.now actor.new }
{
    let forecast = board.forecast.copy(alloc)?;
    actor.take(Heard {
        link,
        version: board.version,
        forecast,
    })?;
    settle(alloc, net, actor, planner)
}

/// The node publishes on the board of the link on which it wants to. After its last link it rests, so that the next node's plan
/// takes the memory of its own.
pub(crate) fn tell(
    alloc: Global,
    net: &Network,
    link: u32,
    board: &mut Board,
    actor: &mut Actor,
) -> Result<(), AllocError>
    requires of { IsOf net.now actor.old }
    requires want { actor.old.want ≡ Want.Publish link }
    requires below { board.old.version ≤ most_rounds }
    ensures told { OnOk result (HasTold (tells_from net.now actor.old.node (link + 1)) actor.old actor.new) }
    ensures version { OnOk result (board.new.version ≡ board.old.version + 1) }
    ensures forecast { OnOk result (board.new.forecast
        ≡ told_forecast net.now link actor.old.sensed.now
        (departures actor.old.window.lists (counts_of actor.old.window.lists) actor.old.phases actor.old.served)) }
    ensures of { IsOf net.now actor.new }
{
    let forecast = actor.outgoing(alloc, net)?;
    actor.sent(net);
    if is_done(actor.want()) {
        actor.rest(alloc);
    }
    board.version += 1;
    board.forecast = forecast;
    Ok(())
}
