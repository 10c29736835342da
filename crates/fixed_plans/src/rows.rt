//! Rows of a fixed plan.
use foundation::threads::CrossesThreads;

/// The green of one phase in the cycle of a node.
///
/// docs/RULES.md, "Fixed plan".
#[derive(Debug, Clone, Copy, PartialEq, Eq)]
pub struct FixedRow {
    /// The number of the node.
    pub node: u32,
    /// The phase, from 0.
    pub phase: u32,
    /// How many seconds its green lasts, from the least to the greatest green of the phase.
    pub green: u32,
    /// A second at which the first green of a cycle begins, 0 to 17,999; the same in each row of a node.
    pub offset: u32,
}

impl CrossesThreads for FixedRow {}

/// The row before another one.
#[derive(Clone, Copy)]
pub(crate) struct Before {
    /// The row.
    pub row: FixedRow,
    /// Whether it is the first of its node.
    pub first: bool,
}
