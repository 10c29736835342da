//! What is counted.
use foundation::threads::CrossesThreads;

/// What is counted of a network whose links can hold so much and no more, from second 0 on, in thousandths of a vehicle.
///
/// docs/RULES.md, "Storage".
#[derive(Debug, Clone, Copy, PartialEq, Eq)]
pub struct SpillTotals {
    /// All that entered links from outside.
    pub entered: u64,
    /// All that left the network.
    pub left: u64,
    /// What is on the links.
    pub on: u64,
    /// What waits outside of links that are full.
    pub outside: u64,
    /// The sum of what waits at the ends of links and outside of them after each second, in thousandths of a vehicle-second.
    pub delay: u64,
}

impl CrossesThreads for SpillTotals {}
