//! The network of a square grid, by names.
ghost use Rattle.std.specs.Prelude.{◌≡◌, ◌*◌, ◌<◌, ◌++◌, IfOk, OnOk, map};
ghost use Rattle.std.specs.List.{flat_map};
ghost use Rattle.std.specs.Option.{option_map};
ghost use Rattle.scenario_gen.specs.Drafts as drafts;
ghost use Rattle.scenario_gen.specs.{Drafts.conflict, Drafts.conflicts_of, Drafts.grid_draft, Drafts.road_name, Layout.IsSide};
ghost use Rattle.scenario_gen.specs.Layout as layout;

use crate::layout::{Direction, Kind, Road, phase_roads, roads};
use foundation::items::Items;
use foundation::text::Text;
use phase_plan::Phase;
use road_net::{Draft, DraftConflict, DraftLink, DraftNode, DraftPhase, DraftTurn, Run};
use std::alloc::{AllocError, Global};

/// The times of each phase, in seconds.
const USUAL: Phase = Phase {
    least: 5,
    greatest: 40,
    yellow: 3,
    clear: 2,
    loss: 2,
    wait: 300,
    skip: false,
};

/// The share of those who go straight on, in thousandths.
const STRAIGHT: u32 = 700;

/// The share of those who turn to each side, in thousandths.
const ASIDE: u32 = 150;

/// The network of a grid with `side` nodes a side, for `rounds` rounds.
pub(crate) fn draft(alloc: Global, side: u32, rounds: u32) -> Result<Draft, AllocError>
    requires { IsSide side }
    ensures { IfOk result (λ d. d ≡ grid_draft side rounds) }
{
    let roads = roads(alloc, side)?;
    draft_of(alloc, side, rounds, roads.as_slice())
}

/// The network of a grid with these roads.
fn draft_of(alloc: Global, side: u32, rounds: u32, roads: &[Road]) -> Result<Draft, AllocError>
    requires side { IsSide side }
    requires roads { roads.now ≡ layout.roads side }
    ensures { IfOk result (λ d. d ≡ grid_draft side rounds) }
{
    let nodes = nodes(alloc, side, roads)?;
    let links = links(alloc, side, roads)?;
    let conflicts = conflicts(alloc, side, roads)?;
    Ok(Draft {
        run: Run {
            step: 5,
            look: 60,
            gap: 2,
            rounds,
            split: false,
            age: None,
            hold: None,
            recall: None,
            act_step: None,
            rate: None,
        },
        nodes,
        links,
        conflicts,
        great: false,
    })
}

/// The nodes, in number order.
fn nodes(alloc: Global, side: u32, roads: &[Road]) -> Result<Items<DraftNode>, AllocError>
    requires side { IsSide side }
    requires roads { roads.now ≡ layout.roads side }
    ensures { IfOk result (λ nodes. nodes ≡ map (drafts.node side) (layout.nodes side)) }
{
    let mut nodes = Vec::new(alloc);
    for k in 0..side * side {
        nodes.push(node(alloc, side, roads, k)?)?;
    }
    Ok(Items::from_vec(nodes))
}

/// A node, with its phases.
fn node(alloc: Global, side: u32, roads: &[Road], k: u32) -> Result<DraftNode, AllocError>
    requires side { IsSide side }
    requires roads { roads.now ≡ layout.roads side }
    ensures { IfOk result (λ made. made ≡ drafts.node side k) }
{
    let mut phases = Vec::new(alloc);
    phases.push(phase(alloc, side, roads, k, 0)?)?;
    phases.push(phase(alloc, side, roads, k, 1)?)?;
    Ok(DraftNode {
        name: node_name(alloc, k)?,
        phases: Items::from_vec(phases),
        free_ring: false,
    })
}

/// A phase of a node, with the links that it serves.
fn phase(
    alloc: Global,
    side: u32,
    roads: &[Road],
    node: u32,
    phase: u32,
) -> Result<DraftPhase, AllocError>
    requires side { IsSide side }
    requires roads { roads.now ≡ layout.roads side }
    ensures { IfOk result (λ made. made ≡ drafts.phase (layout.phase_roads side node phase)) }
{
    let served = phase_roads(alloc, side, roads, node, phase)?;
    Ok(DraftPhase {
        phase: USUAL,
        links: road_names(alloc, served.as_slice())?,
        also: Items::from_vec(Vec::new(alloc)),
    })
}

/// The names of roads.
fn road_names(alloc: Global, roads: &[Road]) -> Result<Items<Text>, AllocError>
    ensures { IfOk result (λ names. names ≡ map road_name roads.now) }
{
    let mut names = Vec::new(alloc);
    for road in roads {
        names.push(road_name(alloc, *road)?)?;
    }
    Ok(Items::from_vec(names))
}

/// The links, in the order of the roads.
fn links(alloc: Global, side: u32, roads: &[Road]) -> Result<Items<DraftLink>, AllocError>
    requires side { IsSide side }
    requires roads { roads.now ≡ layout.roads side }
    ensures { IfOk result (λ links. links ≡ map (drafts.link side) roads.now) }
{
    let mut links = Vec::new(alloc);
    for road in roads {
        links.push(link(alloc, side, *road)?)?;
    }
    Ok(Items::from_vec(links))
}

/// The link of a road.
fn link(alloc: Global, side: u32, road: Road) -> Result<DraftLink, AllocError>
    requires side { IsSide side }
    requires node { road.node < side * side }
    ensures { IfOk result (λ link. link ≡ drafts.link side road) }
{
    let end = road.end(side);
    let name = road_name(alloc, road)?;
    let from = name_if(alloc, road.begin())?;
    let to = name_if(alloc, end)?;
    let turns = turns_from(alloc, end, road.side())?;
    Ok(DraftLink {
        name,
        from,
        to,
        travel: 15,
        sat: 500,
        weight: 1,
        yields: None,
        walk: None,
        turns,
    })
}

/// The name of a node, where there is one.
fn name_if(alloc: Global, node: Option<u32>) -> Result<Option<Text>, AllocError>
    ensures { IfOk result (λ name. name ≡ option_map drafts.node_name node) }
{
    match node {
        Some(node) => Ok(Some(node_name(alloc, node)?)),
        None => Ok(None),
    }
}

/// The turns of a road that comes to this node, if it ends at one, from this side.
fn turns_from(
    alloc: Global,
    node: Option<u32>,
    from: Direction,
) -> Result<Items<DraftTurn>, AllocError>
    ensures { IfOk result (λ turns. turns ≡ drafts.turns_from node from) }
{
    let mut turns = Vec::new(alloc);
    if let Some(node) = node {
        let left = from.clockwise();
        turns.push(turn(alloc, node, from.opposite(), STRAIGHT)?)?;
        turns.push(turn(alloc, node, left, ASIDE)?)?;
        turns.push(turn(alloc, node, left.opposite(), ASIDE)?)?;
    }
    Ok(Items::from_vec(turns))
}

/// The turn into the road that leaves a node in a direction.
fn turn(alloc: Global, node: u32, direction: Direction, share: u32) -> Result<DraftTurn, AllocError>
    ensures { IfOk result (λ made. made ≡ drafts.turn node direction share) }
{
    let road = Road {
        kind: Kind::Leaving,
        node,
        direction,
    };
    Ok(DraftTurn {
        exit: road_name(alloc, road)?,
        share,
    })
}

/// The conflicts of all nodes, node by node.
fn conflicts(alloc: Global, side: u32, roads: &[Road]) -> Result<Items<DraftConflict>, AllocError>
    requires side { IsSide side }
    requires roads { roads.now ≡ layout.roads side }
    ensures { IfOk result (λ conflicts. conflicts ≡ flat_map (drafts.conflicts side) (layout.nodes side)) }
{
    let mut conflicts = Vec::new(alloc);
    for node in 0..side * side {
        push_conflicts_at(alloc, side, roads, node, &mut conflicts)?;
    }
    Ok(Items::from_vec(conflicts))
}

/// Appends the conflicts of a node.
fn push_conflicts_at(
    alloc: Global,
    side: u32,
    roads: &[Road],
    node: u32,
    conflicts: &mut Vec<DraftConflict>,
) -> Result<(), AllocError>
    requires side { IsSide side }
    requires roads { roads.now ≡ layout.roads side }
    ensures { OnOk result (conflicts.new.items ≡ conflicts.old.items ++ drafts.conflicts side node) }
{
    let first = phase_roads(alloc, side, roads, node, 0)?;
    let second = phase_roads(alloc, side, roads, node, 1)?;
    push_conflicts(alloc, first.as_slice(), second.as_slice(), conflicts)
}

/// Appends the conflicts of each road of the first list with each of the second.
fn push_conflicts(
    alloc: Global,
    first: &[Road],
    second: &[Road],
    conflicts: &mut Vec<DraftConflict>,
) -> Result<(), AllocError>
    ensures { OnOk result (conflicts.new.items ≡ conflicts.old.items ++ conflicts_of first.now second.now) }
{
    for a in first {
        push_conflicts_of(alloc, *a, second, conflicts)?;
    }
    Ok(())
}

/// Appends the conflicts of a road with each of these.
fn push_conflicts_of(
    alloc: Global,
    a: Road,
    second: &[Road],
    conflicts: &mut Vec<DraftConflict>,
) -> Result<(), AllocError>
    ensures { OnOk result (conflicts.new.items ≡ conflicts.old.items ++ map (conflict a) second.now) }
{
    for b in second {
        conflicts.push(DraftConflict {
            a: road_name(alloc, a)?,
            b: road_name(alloc, *b)?,
        })?;
    }
    Ok(())
}

/// The name of a node.
fn node_name(alloc: Global, node: u32) -> Result<Text, AllocError>
    ensures { IfOk result (λ name. name ≡ drafts.node_name node) }
{
    Ok(Text::from_string(format!(in alloc; "n{node}")?))
}

/// The name of a road.
fn road_name(alloc: Global, road: Road) -> Result<Text, AllocError>
    ensures { IfOk result (λ name. name ≡ drafts.road_name road) }
{
    let node = road.node;
    let number = road.direction.number();
    let name = match road.kind {
        Kind::Leaving => format!(in alloc; "l{node}_{number}")?,
        Kind::Entering => format!(in alloc; "s{node}_{number}")?,
    };
    Ok(Text::from_string(name))
}
