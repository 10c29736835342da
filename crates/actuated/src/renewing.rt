//! How the timelines of the nodes go on when a round begins.

ghost use Rattle.std.specs.Prelude.{◌≡◌, ℕ, ◌<◌, ◌≤◌, IfOk, OnOk, length};
ghost use Rattle.net_parts.specs.{Limits.most_seconds, Outline.plan_at};
ghost use Rattle.net_simulator.specs.Worlds.{line_in};
ghost use Rattle.actuated.specs.ActRuns as spec;
ghost use Rattle.actuated.specs.Rounds.{AreAmounts, AreFirstLines, AreRenewed, IsReady, IsRenewed};

use super::act_lines::act_line;
use super::near_calls::list_calls;
use control_flow::greens::Timeline;
use control_flow::{head_at, rotation};
use road_net::Network;
use std::alloc::{AllocError, Global};
use switch_rules::Head;

/// The first timeline of a node.
fn first_line(alloc: Global, net: &Network, node: u32) -> Result<Timeline, AllocError>
    requires { node < length net.now.node_names }
    ensures value { IfOk result (λ line. line ≡ spec.first_line net.now node) }
    ensures ready { IfOk result (IsReady (plan_at net.now node) 0) }
{
    let plan = net.plan(node);
    // Called for its clause `ring`.
    let _ = plan.count();
    let first = Head {
        phase: 0,
        since: 0,
        at: 0,
        fresh: true,
    };
    rotation(alloc, plan, &first, 0)
}

/// The first timelines of all nodes, with which a run begins: the ring turns from second 0. `Err`: out of memory.
///
/// docs/RULES.md, "Actuated control".
pub fn first_lines(alloc: Global, net: &Network) -> Result<Vec<Timeline>, AllocError>
    ensures { IfOk result (λ lines. AreFirstLines net.now (length net.now.node_names) lines.items) }
{
    let mut lines = Vec::with_capacity(alloc, net.nodes() as usize)?;
    for node in 0..net.nodes() {
        lines.push(first_line(alloc, net, node)?)?;
    }
    Ok(lines)
}

/// A node's timeline goes on in second `now` by what calls for its phases.
fn renew_line(
    alloc: Global,
    net: &Network,
    now: u32,
    node: u32,
    calls: &[u32],
    line: &mut Timeline,
) -> Result<(), AllocError>
    requires now { now ≤ most_seconds }
    requires node { node < length net.now.node_names }
    requires calls { length calls.now ≡ length (plan_at net.now node) }
    requires ready { IsReady (plan_at net.now node) now line.old }
    ensures { OnOk result (IsRenewed net.now calls.now now node line.old line.new) }
{
    let plan = net.plan(node);
    let head = head_at(plan, line, now);
    let next = act_line(alloc, plan, &head, calls, now + net.run().look)?;
    line.splice(next)?;
    Ok(())
}

/// The timeline of each node goes on when a round begins in second `now`, at most 86,400, by what calls for the node's
/// phases: what is near on the links that they serve. `near` says what is near on each link, whatever the world is; in
/// `calls` is written what calls for the phases of a node.
///
/// `Err`: out of memory. The timelines, some of which may have gone on then, are dropped.
///
/// docs/RULES.md, "Actuated control".
pub fn renew_lines(
    alloc: Global,
    net: &Network,
    now: u32,
    near: &[u32],
    mut lines: Vec<Timeline>,
    calls: &mut Vec<u32>,
) -> Result<Vec<Timeline>, AllocError>
    requires now { now ≤ most_seconds }
    requires near { AreAmounts net.now near.now }
    requires count { length lines.items ≡ length net.now.node_names }
    requires ready { (node : ℕ) → node < length net.now.node_names
        → IsReady (plan_at net.now node) now (line_in lines.items node) }
    ensures { IfOk result (λ renewed. AreRenewed net.now near.now now (length net.now.node_names)
        lines.items renewed.items) }
{
    let nodes = net.nodes();
    for node in 0..nodes {
        list_calls(net, node, near, calls)?;
        renew_line(
            alloc,
            net,
            now,
            node,
            calls.as_slice(),
            &mut lines[node as usize],
        )?;
    }
    Ok(lines)
}
