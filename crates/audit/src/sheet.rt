//! A sheet.

use control_flow::greens::Green;
use foundation::items::Items;
use net_simulator::{LinkTotals, Totals};

/// What a report says: the greens of each node and the totals. Nothing of it needs to be so.
///
/// docs/RULES.md, "Audit".
#[derive(Drop)]
pub struct Sheet {
    /// The rows of each node's timeline, by node, in the order of the report. Their phases and seconds are any.
    pub lines: Items<Items<Green>>,
    /// What is said of each link, by number.
    pub links: Items<LinkTotals>,
    /// What is said of the whole network.
    pub totals: Totals,
}
