//! What an audit finds.

use control_flow::greens::Timeline;
use foundation::items::Items;
use foundation::threads::CrossesThreads;

/// Why a sheet is not clean: the first that is so, in this order. Nodes and links are numbered from 0, and the rows of
/// a node from 1, in the order of the sheet.
///
/// docs/RULES.md, "Audit".
#[derive(Debug, Clone, Copy, PartialEq, Eq)]
pub enum AuditWhy {
    /// The least node with a row that is no green of its plan, and the first such row: its phase does not exist, it
    /// does not end after its begin, or it is shorter than the least or longer than the greatest green of its phase.
    Span { node: u32, row: u32 },
    /// Each row is a green. The least node with a row that may not follow the one before it, and the first such row.
    Next { node: u32, row: u32 },
    /// All lines are lawful. The least link of which something else is said than the world shows under them.
    Link { link: u32 },
    /// All lines are lawful, and what is said of each link is so. What is said of the whole network is not.
    Total,
}

impl CrossesThreads for AuditWhy {}

/// Whether a sheet is clean.
///
/// docs/RULES.md, "Audit".
#[derive(Debug, Clone, Copy, PartialEq, Eq)]
pub enum Finding {
    /// It is.
    Clean,
    /// It is not.
    Bad(AuditWhy),
}

impl CrossesThreads for Finding {}

/// The lines of a sheet that is clean, or why it is not.
///
/// docs/RULES.md, "Audit".
#[derive(Drop)]
pub enum Audited {
    /// It is clean, and these are its lines, by node.
    Clean(Items<Timeline>),
    /// It is not.
    Bad(AuditWhy),
}
