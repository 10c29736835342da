//! The nodes of a network before the first round.
ghost use Rattle.std.specs.Prelude.{◌≡◌, IfOk, ◌≤◌, length, vec_len};
ghost use Rattle.net_threads.specs.Tasks.{AreTasksOf, actors_in};

use crate::node_tasks::{Node, NodeTask};
use board_model::Gate;
use intersection_actor::Actor;
use link_boards::{Boards, LinkSlot, Pass};
use node_rounds::RoundSetting;
use road_net::Network;
use schedule_meaning::Planner;
use std::alloc::{AllocError, Global};

/// The task of a node.
///
/// `Err`: out of memory.
fn node_task<'a, P: Planner + Drop, S: LinkSlot, G: Gate>(
    setting: RoundSetting<'a, S, G>,
    actor: Actor,
    planner: P,
    pass: Pass<S>,
) -> Result<NodeTask<'a, P, S, G>, AllocError>
    ensures setting { IfOk result (λ task. task.setting ≡ setting.entry) }
    ensures actor { IfOk result (λ task. task.node.value.actor ≡ actor) }
{
    let alloc = setting.alloc;
    let node = Node {
        actor,
        planner,
        pass,
    };
    Ok(NodeTask {
        setting,
        node: Box::new(alloc, node)?,
        ended: Ok(()),
    })
}

/// The tasks of nodes with these actors, each with one of these planners and passes.
///
/// `Err`: out of memory.
pub(crate) fn node_tasks<'a, P: Planner + Drop, S: LinkSlot, G: Gate>(
    alloc: Global,
    net: &'a Network,
    boards: &'a Boards<S>,
    gate: &'a G,
    actors: Vec<Actor>,
    planners: Vec<P>,
    passes: Vec<Pass<S>>,
) -> Result<Vec<NodeTask<'a, P, S, G>>, AllocError>
    requires planners { vec_len planners ≡ vec_len actors }
    requires passes { vec_len passes ≡ vec_len actors }
    ensures actors { IfOk result (λ tasks. actors_in tasks.items ≡ actors.items) }
    ensures of { IfOk result (λ tasks. AreTasksOf net.now boards.now tasks.items) }
{
    let mut tasks = Vec::with_capacity(alloc, actors.len())?;
    let mut planners = planners;
    let mut passes = passes;
    for actor in actors {
        let Some(planner) = planners.pop() else {
            unreachable!();
        };
        let Some(pass) = passes.pop() else {
            unreachable!();
        };
        let setting = RoundSetting {
            alloc,
            net,
            boards,
            gate,
            round: 0,
        };
        tasks.push(node_task(setting, actor, planner, pass)?)?;
    }
    Ok(tasks)
}
