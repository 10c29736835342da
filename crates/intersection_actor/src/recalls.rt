//! Which marks a node leaves out in a round.
ghost use Rattle.std.specs.Prelude.{◌≡◌, ◌<◌, ◌≤◌, ◌&&◌, not, nat_le, IfOk, length, take, map, vec_len};
ghost use Rattle.std.specs.List.{list_any, range_with_len};
ghost use Rattle.clusters.specs.Inflow.{sense_of};
ghost use Rattle.control_flow.specs.Recalls.{recalled, without_mark};
ghost use Rattle.intersection_actor.specs.Commits.{is_recalled, round_plan};
ghost use Rattle.net_parts.specs.Outline.{phase_links_at, plan_at};

use clusters::stood_on;
use phase_plan::{Phase, PhasePlan};
use road_net::{Network, Sensed};
use std::alloc::{AllocError, Global};

/// The phases of a node as it plans them in this round: where the network has `recall`, a phase with a link whose queue has
/// stood for that many seconds or longer has no mark.
///
/// `Err`: out of memory.
pub(crate) fn round_plan(
    alloc: Global,
    net: &Network,
    node: u32,
    sensed: &Sensed,
) -> Result<PhasePlan, AllocError>
    requires { node < length net.now.node_names }
    ensures { IfOk result (λ plan. plan ≡ round_plan net.now node sensed.entry.now) }
{
    match net.run().recall {
        None => net.plan(node).copy(alloc),
        Some(recall) => recalled_plan(alloc, net, node, sensed, recall),
    }
}

/// The phases of a node, where those that it recalls have no mark.
fn recalled_plan(
    alloc: Global,
    net: &Network,
    node: u32,
    sensed: &Sensed,
    recall: u32,
) -> Result<PhasePlan, AllocError>
    requires { node < length net.now.node_names }
    ensures { IfOk result (λ plan. plan
        ≡ recalled (plan_at net.now node) (is_recalled net.now node sensed.entry.now recall)) }
{
    // Called for its clause `ring`, and not for the count.
    let _ = net.plan(node).count();
    let phases = recalled_phases(alloc, net, node, sensed, recall)?;
    match PhasePlan::with_any_marks(phases) {
        Ok(plan) => Ok(plan),
        Err(_) => unreachable!(),
    }
}

/// The list of the phases of a node, where those that it recalls have no mark.
fn recalled_phases(
    alloc: Global,
    net: &Network,
    node: u32,
    sensed: &Sensed,
    recall: u32,
) -> Result<Vec<Phase>, AllocError>
    requires { node < length net.now.node_names }
    ensures { IfOk result (λ phases. phases.items
        ≡ recalled (plan_at net.now node) (is_recalled net.now node sensed.entry.now recall)) }
{
    let mut phases = Vec::new(alloc);
    for k in 0..net.plan(node).count() {
        phases.push(recalled_phase(net, node, sensed, recall, k))?;
    }
    Ok(phases)
}

/// A phase of a node, without a mark where it is recalled.
fn recalled_phase(net: &Network, node: u32, sensed: &Sensed, recall: u32, k: u8) -> Phase
    requires node { node < length net.now.node_names }
    requires phase { k < length (plan_at net.now node) }
    ensures { result ≡ without_mark (plan_at net.now node) (is_recalled net.now node sensed.entry.now recall) k }
{
    let phase = net.plan(node).phase(k);
    Phase {
        skip: phase.skip && !is_recalled(net, node, sensed, recall, k),
        ..*phase
    }
}

/// Whether the queue of one of a phase's links has stood for this many seconds or longer.
fn is_recalled(net: &Network, node: u32, sensed: &Sensed, recall: u32, k: u8) -> bool
    requires node { node < length net.now.node_names }
    requires phase { k < length (plan_at net.now node) }
    ensures { result ≡ is_recalled net.now node sensed.entry.now recall k }
{
    net.phase_links(node, k)
        .iter()
        .any(|l| recall <= stood_on(sensed, *l))
}
