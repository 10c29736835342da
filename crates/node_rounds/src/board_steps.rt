//! The board steps of a node's round: its readings, and then its publishings.
ghost use Rattle.std.specs.Prelude.{◌≡◌, ℕ, ◌+◌, ◌<◌, ◌≤◌, [], IfOk, OnOk, length};
ghost use Rattle.link_boards.specs.Passes as board;
ghost use Rattle.histories.specs.Steps.{board_steps};
ghost use Rattle.intersection_actor.specs.{Acting.reading, Acting.told_at, Rounds.IsOf};
ghost use Rattle.net_parts.specs.Numbers.{Net};
ghost use Rattle.road_net.specs.Network.{heard_links, told_links};
ghost use Rattle.node_rounds.specs.Nodes.{HasHeard, HasRead, HasSent, HasTold, IsSamePass};

use crate::round_setting::RoundSetting;
use board_model::{Forecast, Gate, Heard, Sent};
use intersection_actor::{Actor, Want};
use link_boards::{LinkSlot, Pass};
use road_net::law_of_network;
use std::alloc::AllocError;
use std::sync::Wait;
use std::thread::Threads;

/// The node reads the link that it wants to read.
fn read<'a, S: LinkSlot, R: Threads + Wait + Sync, G: Gate>(
    rt: &R,
    setting: &RoundSetting<'a, S, G>,
    link: u32,
    actor: &mut Actor,
    pass: &mut Pass<S>,
) -> Result<(), AllocError>
    requires boards { pass.old.boards ≡ setting.now.boards.now.id }
    requires link { link < setting.now.boards.now.links }
    requires left { 0 < pass.old.left }
    requires want { actor.old.want ≡ Want.Read link }
    ensures read { OnOk result (HasRead link actor.old actor.new pass.old pass.new) }
    ensures of { (net : Net) → IsOf net actor.old → IsOf net actor.new }
    ensures same { IsSamePass pass.old pass.new }
{
    let boards = setting.boards;
    let gate = setting.gate;
    gate.before(rt, pass.number(), setting.round, link, false);
    let seen = boards.read(rt, setting.alloc, pass, link, gate)?;
    actor.take(Heard {
        link,
        version: seen.version,
        forecast: seen.forecast,
    })
}

/// The node reads all links on which it hears another one.
pub(crate) fn hear<'a, S: LinkSlot, R: Threads + Wait + Sync, G: Gate>(
    rt: &R,
    setting: &RoundSetting<'a, S, G>,
    actor: &mut Actor,
    pass: &mut Pass<S>,
) -> Result<(), AllocError>
    requires links { setting.now.boards.now.links ≡ length setting.now.net.now.link_names }
    requires boards { pass.old.boards ≡ setting.now.boards.now.id }
    requires left { length (board_steps setting.now.net.now actor.old.node) ≤ pass.old.left }
    requires of { IsOf setting.now.net.now actor.old }
    requires begun { (actor.old.left ≡ heard_links setting.now.net.now actor.old.node)
        × (actor.old.want ≡ reading actor.old.left) }
    ensures heard { OnOk result (HasHeard actor.old actor.new pass.old pass.new) }
    ensures all { OnOk result (actor.new.left ≡ []) }
    ensures of { IsOf setting.now.net.now actor.new }
    ensures same { IsSamePass pass.old pass.new }
{
    law_of_network(setting.net);
    while let Want::Read(link) = actor.want() {
        read(rt, setting, link, actor, pass)?;
    }
    Ok(())
}

/// The pass publishes this forecast on the link.
fn send<'a, S: LinkSlot, R: Threads + Wait + Sync, G: Gate>(
    rt: &R,
    setting: &RoundSetting<'a, S, G>,
    link: u32,
    forecast: Forecast,
    pass: &mut Pass<S>,
) -> Result<Sent, AllocError>
    requires boards { pass.old.boards ≡ setting.now.boards.now.id }
    requires link { link < setting.now.boards.now.links }
    requires left { 0 < pass.old.left }
    ensures sent { IfOk result (λ sent. board.HasSent pass.old pass.new link forecast sent) }
    ensures same { IsSamePass pass.old pass.new }
{
    let boards = setting.boards;
    match boards.publish(rt, pass, link, forecast, setting.gate) {
        Ok(sent) => Ok(sent),
        Err(refused) => Err(refused.1),
    }
}

/// The node publishes on the link on which it wants to.
fn publish<'a, S: LinkSlot, R: Threads + Wait + Sync, G: Gate>(
    rt: &R,
    setting: &RoundSetting<'a, S, G>,
    link: u32,
    actor: &mut Actor,
    pass: &mut Pass<S>,
) -> Result<(), AllocError>
    requires boards { pass.old.boards ≡ setting.now.boards.now.id }
    requires link { link < setting.now.boards.now.links }
    requires left { 0 < pass.old.left }
    requires of { IsOf setting.now.net.now actor.old }
    requires want { actor.old.want ≡ Want.Publish link }
    ensures sent { OnOk result (HasSent setting.now.net.now link actor.old actor.new pass.old pass.new) }
    ensures of { IsOf setting.now.net.now actor.new }
    ensures same { IsSamePass pass.old pass.new }
{
    let net = setting.net;
    let gate = setting.gate;
    let forecast = actor.outgoing(setting.alloc, net)?;
    gate.before(rt, pass.number(), setting.round, link, true);
    send(rt, setting, link, forecast, pass)?;
    actor.sent(net);
    Ok(())
}

/// The node publishes on all links on which it tells another one.
pub(crate) fn tell<'a, S: LinkSlot, R: Threads + Wait + Sync, G: Gate>(
    rt: &R,
    setting: &RoundSetting<'a, S, G>,
    actor: &mut Actor,
    pass: &mut Pass<S>,
) -> Result<(), AllocError>
    requires links { setting.now.boards.now.links ≡ length setting.now.net.now.link_names }
    requires boards { pass.old.boards ≡ setting.now.boards.now.id }
    requires number { pass.old.number ≡ actor.old.node }
    requires left { length (told_links setting.now.net.now actor.old.node) ≤ pass.old.left }
    requires of { IsOf setting.now.net.now actor.old }
    requires want { actor.old.want ≡ told_at setting.now.net.now actor.old.node 0 }
    ensures told { OnOk result (HasTold setting.now.net.now actor.old actor.new pass.old pass.new
        (told_links setting.now.net.now actor.old.node)) }
    ensures of { IsOf setting.now.net.now actor.new }
    ensures same { IsSamePass pass.old pass.new }
{
    let net = setting.net;
    for link in net.exit_links(pass.number()) {
        if net.link(*link).to.is_none() {
            continue;
        }
        publish(rt, setting, *link, actor, pass)?;
    }
    Ok(())
}
