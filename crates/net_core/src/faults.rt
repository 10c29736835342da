//! Why a core does no step.
use foundation::threads::CrossesThreads;

/// Why a core does not do a step. The first four leave it as it was.
///
/// docs/DESIGN.md, "Core".
#[derive(Debug, Clone, Copy, PartialEq, Eq)]
pub enum StepFault {
    /// The network has no such node.
    UnknownNode,
    /// An earlier step of this core ran out of memory.
    Spent,
    /// All rounds are done.
    Over,
    /// The node wants nothing in this round.
    NotItsTurn,
    /// Memory ran out; the core is spent.
    NoMemory,
}

impl CrossesThreads for StepFault {}
