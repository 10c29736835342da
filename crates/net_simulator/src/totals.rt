//! What is counted.

use foundation::threads::CrossesThreads;

/// What is counted of a link, from second 0 on.
///
/// docs/RULES.md, "World".
#[derive(Debug, Clone, Copy, PartialEq, Eq)]
pub struct LinkTotals {
    /// All that entered it, in thousandths of a vehicle.
    pub entered: u64,
    /// All that left it, in thousandths of a vehicle.
    pub left: u64,
    /// The sum of its queues after each second, in thousandths of a vehicle times seconds.
    pub delay: u64,
}

/// What is counted of the whole network, from second 0 on: `entered` is `left` and `on` together.
///
/// docs/RULES.md, "World".
#[derive(Debug, Clone, Copy, PartialEq, Eq)]
pub struct Totals {
    /// All that arrived from outside, in thousandths of a vehicle.
    pub entered: u64,
    /// All that left the network, in thousandths of a vehicle.
    pub left: u64,
    /// All that is on its links now, in thousandths of a vehicle.
    pub on: u64,
    /// The delay of all links, in thousandths of a vehicle times seconds.
    pub delay: u64,
}

impl CrossesThreads for LinkTotals {}

impl CrossesThreads for Totals {}
