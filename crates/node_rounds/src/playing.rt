//! A node's round: it begins when the node senses the world, and the node plays on from there.
ghost use Rattle.std.specs.Prelude.{◌≡◌, ◌*◌, ◌<◌, OnErr, OnOk, length};
ghost use Rattle.intersection_actor.specs.Rounds.{IsOf};
ghost use Rattle.node_rounds.specs.Nodes.{CanGoOn, CanPlay, HasBegun, HasPlayedOn, IsSamePass};

use crate::board_steps::{hear, tell};
use crate::round_setting::RoundSetting;
use board_model::Gate;
use intersection_actor::Actor;
use link_boards::{LinkSlot, Pass};
use net_simulator::World;
use schedule_meaning::Planner;
use std::alloc::AllocError;
use std::sync::Wait;
use std::thread::Threads;

/// A node, whose pass this is, senses the world, and its round begins.
///
/// `Err`: out of memory; the node is as it was.
///
/// docs/DESIGN.md, "Rounds in threads".
pub fn begin<'a, S: LinkSlot, G: Gate>(
    setting: &RoundSetting<'a, S, G>,
    world: &World,
    actor: &mut Actor,
    pass: &Pass<S>,
) -> Result<(), AllocError>
    requires can { CanPlay setting.now.net.now setting.now.round world.now setting.now.boards.now actor.old pass.now }
    ensures begun { OnOk result (HasBegun setting.now.net.now setting.now.round world.now actor.old actor.new) }
    ensures of { IsOf setting.now.net.now actor.new }
    ensures refused { OnErr result (actor.new ≡ actor.old) }
{
    let net = setting.net;
    let spare = actor.take_spare(setting.alloc);
    let sensed = world.sense_again(setting.alloc, net, pass.number(), spare)?;
    actor.begin(setting.alloc, net, setting.round, sensed)
}

/// A node that has begun a round plays on, with its own actor, planner and pass: it reads the links on which it hears other nodes,
/// plans, and publishes on the links on which it tells them. Each board step is a call of the pass, after `gate.before`. Other
/// nodes play at the same time.
///
/// `Err`: out of memory. The pass keeps the calls that were made.
///
/// docs/DESIGN.md, "Rounds in threads".
pub fn play<'a, P: Planner, S: LinkSlot, R: Threads + Wait + Sync, G: Gate>(
    rt: &R,
    setting: &RoundSetting<'a, S, G>,
    actor: &mut Actor,
    planner: &mut P,
    pass: &mut Pass<S>,
) -> Result<(), AllocError>
    requires links { setting.now.boards.now.links ≡ length setting.now.net.now.link_names }
    requires can { CanGoOn setting.now.net.now setting.now.round setting.now.boards.now actor.old pass.old }
    ensures played { OnOk result (HasPlayedOn setting.now.net.now setting.now.round setting.now.boards.now
        actor.old actor.new pass.old pass.new) }
    ensures same { IsSamePass pass.old pass.new }
{
    hear(rt, setting, actor, pass)?;
    actor.commit(setting.alloc, setting.net, planner)?;
    tell(rt, setting, actor, pass)?;
    actor.rest(setting.alloc);
    // `calls_left` is called for its clause `order`.
    let _ = pass.calls_left();
    Ok(())
}
