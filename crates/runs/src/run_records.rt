//! The record of a run that is over: its plans, the timelines of its actors, and what its world has counted; and what is left where
//! the plans are not kept.
ghost use Rattle.std.specs.Prelude.{◌≡◌, ◌+◌, ◌*◌, ◌≤◌, ◌++◌, [], IfOk, length, map, vec_capacity, vec_len};
ghost use Rattle.std.specs.List.{range_with_len};
ghost use Rattle.net_simulator.specs.Counts.{counts_at};
ghost use Rattle.runs.specs.Ending.{AreLeft, HasCapacity, IsRecordOf, lines_in, records_in};

use crate::network_actors::Actors;
use crate::records::{RunRecord, RunTotals};
use control_flow::greens::Timeline;
use foundation::items::Items;
use foundation::threads::CrossesThreads;
use intersection_actor::{Actor, PlanRecord};
use net_simulator::{LinkTotals, World};
use road_net::Network;
use std::alloc::{AllocError, Global};

/// Empty lists with capacity for the timelines and the totals of a run: they are made before the first round, so that the record
/// itself takes no memory.
///
/// docs/RULES.md, "Run".
#[derive(Drop)]
pub struct EmptyRecord {
    timelines: Vec<Timeline>,
    links: Vec<LinkTotals>,
}

impl CrossesThreads for EmptyRecord {}

/// An empty list with capacity for the plans of a run of a network, those of all rounds and nodes.
///
/// `Err`: out of memory.
///
/// docs/RULES.md, "Run".
pub fn empty_plans(alloc: Global, net: &Network) -> Result<Vec<PlanRecord>, AllocError>
    ensures none { IfOk result (λ plans. plans.items ≡ []) }
    ensures capacity { IfOk result (λ plans.
        net.now.run.rounds * length net.now.node_names ≤ vec_capacity plans) }
{
    Vec::with_capacity(alloc, net.run().rounds as usize * net.nodes() as usize)
}

/// Makes the lists for the timelines and the totals of a run of a network.
///
/// `Err`: out of memory.
///
/// docs/RULES.md, "Run".
pub fn empty_record(alloc: Global, net: &Network) -> Result<EmptyRecord, AllocError>
    ensures { IfOk result (HasCapacity net.now) }
{
    let timelines = Vec::with_capacity(alloc, net.nodes() as usize)?;
    let links = Vec::with_capacity(alloc, net.links() as usize)?;
    Ok(EmptyRecord { timelines, links })
}

/// The record of a run after its last round: these plans and, after them, those that the actors still have, by node; the timeline of
/// each actor; and what the world has counted.
///
/// The list of the plans has capacity for those of the actors, so the call cannot fail.
///
/// docs/RULES.md, "Run".
pub fn record_of(
    net: &Network,
    plans: Vec<PlanRecord>,
    actors: Actors,
    world: &World,
    empty: EmptyRecord,
) -> RunRecord
    requires plans { vec_len plans + length (records_in actors.all.items) ≤ vec_capacity plans }
    requires actors { length actors.all.items ≡ length net.now.node_names }
    requires counts { length world.now.counts ≡ length net.now.link_names }
    requires capacity { HasCapacity net.now empty }
    ensures { IsRecordOf net.now plans.items actors.all.items world.now result }
{
    let mut plans = plans;
    let mut actors = actors;
    actors.move_records(&mut plans);
    let RunTotals {
        timelines,
        links,
        totals,
    } = totals_of(net, actors, world, empty);
    RunRecord {
        plans: Items::from_vec(plans),
        timelines,
        links,
        totals,
    }
}

/// What is left of a run after its last round where its plans are not kept: the timeline of each actor, and what the world has
/// counted. It takes no memory.
///
/// docs/RULES.md, "Run".
pub fn totals_of(net: &Network, actors: Actors, world: &World, empty: EmptyRecord) -> RunTotals
    requires actors { length actors.all.items ≡ length net.now.node_names }
    requires counts { length world.now.counts ≡ length net.now.link_names }
    requires capacity { HasCapacity net.now empty }
    ensures { AreLeft net.now actors.all.items world.now result }
{
    let EmptyRecord {
        mut timelines,
        mut links,
    } = empty;
    push_timelines(actors.all, &mut timelines);
    push_totals(net, world, &mut links);
    RunTotals {
        timelines: Items::from_vec(timelines),
        links: Items::from_vec(links),
        totals: world.totals(),
    }
}

/// Appends the timelines of actors.
fn push_timelines(actors: Vec<Actor>, timelines: &mut Vec<Timeline>)
    requires { vec_len timelines.old + length actors.items ≤ vec_capacity timelines.old }
    ensures { timelines.new.items ≡ timelines.old.items ++ lines_in actors.items }
{
    for actor in actors {
        timelines.push_reserved(actor.into_parts().0);
    }
}

/// Appends the totals of all links to a list that is empty.
fn push_totals(net: &Network, world: &World, links: &mut Vec<LinkTotals>)
    requires counts { length world.now.counts ≡ length net.now.link_names }
    requires empty { links.old.items ≡ [] }
    requires capacity { length net.now.link_names ≤ vec_capacity links.old }
    ensures { links.new.items ≡ map (counts_at world.now.counts) (range_with_len 0 (length net.now.link_names)) }
{
    for link in 0..net.links() {
        links.push_reserved(world.link_totals(link));
    }
}
