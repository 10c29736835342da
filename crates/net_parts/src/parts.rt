//! The parts of a network by numbers.
use crate::drafts::Run;
use crate::names::Names;
use crate::roads::{Link, Turn};
use foundation::items::Items;
use phase_plan::PhasePlan;

/// A network by numbers, before it is tested how its parts are joined.
///
/// docs/RULES.md, "Road network".
#[derive(Drop)]
pub struct Parts {
    pub run: Run,
    pub node_names: Names,
    pub plans: Vec<PhasePlan>,
    pub phase_links: Vec<Items<Items<u32>>>,
    pub also_links: Vec<Items<Items<u32>>>,
    pub link_names: Names,
    pub links: Vec<Link>,
    pub turns: Vec<Items<Turn>>,
    pub yields: Vec<Items<u32>>,
    pub conflicts: Vec<(u32, u32)>,
}
