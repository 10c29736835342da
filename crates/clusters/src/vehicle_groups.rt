//! Platoons, their parts, and windows of them.

use crate::parts::Parts;
use foundation::items::Items;
use foundation::threads::CrossesThreads;
use switch_rules::Cluster;

/// What of a platoon comes along one link.
///
/// docs/RULES.md, "Platoons".
#[derive(Drop)]
pub struct Part {
    /// The number of the link.
    pub link: u32,
    /// What leaves the link in each second of the platoon, in thousandths of a vehicle.
    pub amounts: Items<u32>,
}

impl CrossesThreads for Part {}

/// Vehicles of one phase that come together, with what comes along each link.
///
/// docs/RULES.md, "Platoons".
#[derive(Drop)]
pub struct Platoon {
    /// The platoon as planning sees it.
    pub cluster: Cluster,
    /// One part for each link of the phase, in the order in which the phase names them.
    pub parts: Parts,
}

impl CrossesThreads for Platoon {}

/// The platoons that one planning takes up.
///
/// docs/RULES.md, "Window".
#[derive(Drop)]
pub struct Window {
    /// For each phase its platoons, in the order of their arrival.
    pub lists: Items<Items<Platoon>>,
    /// How many platoons wait for a later planning.
    pub waiting: u32,
}

impl CrossesThreads for Window {}
