//! The record of a run, and what it has besides the plans.
ghost use Rattle.std.specs.Prelude.{◌≡◌, ◌<◌, Contains, length};
ghost use Rattle.runs.specs.Complete.{IsComplete};

use control_flow::greens::Timeline;
use foundation::items::Items;
use foundation::threads::CrossesThreads;
use intersection_actor::PlanRecord;
use net_simulator::{LinkTotals, Totals};
use road_net::Network;

/// What a run leaves: what was planned, what the signals showed, and what the world counted.
///
/// docs/RULES.md, "Run".
#[derive(Drop)]
pub struct RunRecord {
    /// The plans, by round and node.
    pub plans: Items<PlanRecord>,
    /// The timeline of each node after the last round.
    pub timelines: Items<Timeline>,
    /// What was counted of each link.
    pub links: Items<LinkTotals>,
    /// What was counted in all.
    pub totals: Totals,
}

impl RunRecord {
    /// What a node planned in a round. The record is complete: it has a plan for each round and node. The round and the node exist.
    ///
    /// docs/RULES.md, "Run".
    pub fn plan(&self, net: &Network, round: u32, node: u32) -> &PlanRecord
        requires whole { IsComplete net.now self.now }
        requires round { round < net.now.run.rounds }
        requires node { node < length net.now.node_names }
        ensures among { Contains self.now.plans result.now }
        ensures round { result.now.round ≡ round }
        ensures node { result.now.node ≡ node }
    {
        let place = round * net.nodes() + node;
        &self.plans.as_slice()[place as usize]
    }
}

impl CrossesThreads for RunRecord {}

/// What a run leaves where its plans are not kept: what the signals showed, and what the world counted.
///
/// docs/RULES.md, "Run".
#[derive(Drop)]
pub struct RunTotals {
    /// The timeline of each node after the last round.
    pub timelines: Items<Timeline>,
    /// What was counted of each link.
    pub links: Items<LinkTotals>,
    /// What was counted in all.
    pub totals: Totals,
}

impl CrossesThreads for RunTotals {}
