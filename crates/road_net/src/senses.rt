//! What a node sees of its entry links.
use foundation::items::Items;
use foundation::threads::CrossesThreads;

/// What a node sees of one of its entry links.
///
/// docs/RULES.md, "What a node sees".
#[derive(Drop)]
pub struct LinkSense {
    /// The number of the link.
    pub link: u32,
    /// The queue at its end, in thousandths of a vehicle.
    pub queue: u32,
    /// What reaches its end in each of the next seconds, in thousandths of a vehicle: one number for each second that
    /// it takes to travel the link.
    pub coming: Items<u32>,
    /// The seconds directly before this one, without a break, after each of which its queue was above 0.
    pub stood: u32,
}

/// What a node sees of its entry links in one second. All amounts together are at most 2,000,000,000.
///
/// docs/RULES.md, "What a node sees".
#[derive(Drop)]
pub struct Sensed {
    /// The second, at most 86,400.
    pub now: u32,
    /// One for each entry link of the node, in the order of the links' numbers.
    pub links: Items<LinkSense>,
}

impl CrossesThreads for LinkSense {}

impl CrossesThreads for Sensed {}
