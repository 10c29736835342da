//! What a node wants to do next, and what it keeps of each planning.
use foundation::items::Items;
use foundation::threads::CrossesThreads;
use schedule_meaning::{Answer, Instance};

/// What a node wants to do next in its round.
///
/// docs/RULES.md, "A node's round".
#[derive(Debug, Clone, Copy, PartialEq, Eq)]
pub enum Want {
    /// To read the board of the link with this number.
    Read(u32),
    /// To plan, once it has read all that it hears.
    Commit,
    /// To publish on the board of the link with this number.
    Publish(u32),
    /// Nothing: it has done its steps of this round, or no round has begun.
    Done,
}

impl CrossesThreads for Want {}

/// The version of a link's forecast that a planning used.
///
/// docs/RULES.md, "Plan record".
#[derive(Debug, Clone, Copy, PartialEq, Eq)]
pub struct Used {
    /// The number of the link.
    pub link: u32,
    /// The version that was read.
    pub version: u32,
}

impl CrossesThreads for Used {}

/// What a node planned in a round, and from what.
///
/// docs/RULES.md, "Plan record".
#[derive(Drop)]
pub struct PlanRecord {
    /// The number of the node.
    pub node: u32,
    /// The round, from 0.
    pub round: u32,
    /// The versions that were heard, one for each link on which the node hears another one, in link order.
    pub used: Items<Used>,
    /// What was planned.
    pub instance: Instance,
    /// The best answer.
    pub answer: Answer,
}

impl CrossesThreads for PlanRecord {}
