//! The record of a run.

use control_flow::greens::Timeline;
use foundation::items::Items;
use foundation::threads::CrossesThreads;
use spillback_world::SpillTotals;

/// What a run under actuated control leaves in the world with a store: the timeline of each node after the last round, and
/// what was counted in all.
///
/// docs/RULES.md, "Storage".
#[derive(Drop)]
pub struct SpillRun {
    /// The timeline of each node.
    pub timelines: Items<Timeline>,
    /// What was counted in all.
    pub totals: SpillTotals,
}

impl CrossesThreads for SpillRun {}
