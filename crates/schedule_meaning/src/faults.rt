//! Why parts make no instance, and why a sequence is not feasible.

use foundation::threads::CrossesThreads;
use switch_rules::Unfit;

/// Why parts make no instance. Phases are numbered from 0, places in a list from 1.
///
/// docs/RULES.md, "Instance".
#[derive(Debug, Clone, Copy, PartialEq, Eq)]
pub enum InstanceFault {
    /// The head's phase is none of the plan.
    HeadPhase,
    /// The head began after second 100,000, or its time is not within its greatest green.
    HeadTime,
    /// There is not one list of clusters for each phase.
    ListCount,
    /// A cluster is out of its bounds.
    ClusterBound { phase: u8, place: u32 },
    /// A cluster arrives before the one before it in its list has arrived whole.
    Order { phase: u8, place: u32 },
    /// There are more than 40 clusters, or more than 50,000 orders to serve them in.
    Many,
}

/// Why a sequence is not feasible. Places are numbered from 1.
///
/// docs/RULES.md, "Sequence, feasibility, delay".
#[derive(Debug, Clone, Copy, PartialEq, Eq)]
pub enum SeqFault {
    /// The first number that is no phase.
    Phase { place: u32 },
    /// The least phase that the sequence has not as often as it has clusters.
    WrongCount(u8),
    /// The first serving that is unfit.
    Unfit { place: u32, why: Unfit },
}

impl CrossesThreads for InstanceFault {}

impl CrossesThreads for SeqFault {}
