//! Whom a state is read for.
use foundation::threads::CrossesThreads;

/// Which nodes of a network are to have their turns in a round.
///
/// docs/FORMATS.md, "State of a round".
#[derive(Debug, Clone, Copy, PartialEq, Eq)]
pub enum Asked {
    /// All of them.
    AllNodes,
    /// The node with this number alone, or none.
    OneNode(Option<u32>),
}

impl CrossesThreads for Asked {}
