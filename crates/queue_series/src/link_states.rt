//! What is kept of a link while its queues are written.

ghost use Rattle.std.specs.Prelude.{◌≡◌, ◌≤◌, IfOk, length, replicate};
ghost use Rattle.queue_series.specs.LinkStates as link_states;
ghost use Rattle.queue_series.specs.LinkStates.{next_peak, next_state};

use foundation::threads::CrossesThreads;
use net_simulator::LinkTotals;
use std::alloc::{AllocError, Global};

/// The longest queue of a link, and when it was first so long.
///
/// docs/FORMATS.md, "Queues".
#[derive(Debug, Clone, Copy, PartialEq, Eq)]
pub struct Peak {
    /// The longest queue, in thousandths of a vehicle.
    pub queue: u64,
    /// How many seconds had passed when it was first so long; 0 where there never was a queue.
    pub second: u32,
}

impl CrossesThreads for Peak {}

/// What is kept of a link at a second: what the next one is compared with, and the longest queue so far.
#[derive(Debug, Clone, Copy, PartialEq, Eq)]
pub(crate) struct LinkState {
    /// The delay up to this second, in thousandths of a vehicle times seconds.
    pub(crate) delay: u64,
    /// The queue, in thousandths of a vehicle.
    pub(crate) queue: u64,
    /// What is on the link, in thousandths of a vehicle.
    pub(crate) on: u64,
    /// The longest queue so far.
    pub(crate) peak: Peak,
}

/// What is kept of empty links at second 0. `Err`: out of memory.
pub(crate) fn first_link_states(alloc: Global, links: u32) -> Result<Vec<LinkState>, AllocError>
    ensures { IfOk result (λ all. all.items ≡ replicate links link_states.first_state) }
{
    let first = LinkState {
        delay: 0,
        queue: 0,
        on: 0,
        peak: Peak {
            queue: 0,
            second: 0,
        },
    };
    vec![in alloc; first; links as usize]
}

/// What is kept of a link at a second, after this was kept at the second before, where this is counted up to now: the delay of a
/// link grows by its queue each second.
pub(crate) fn next_state(before: &LinkState, totals: &LinkTotals, second: u32) -> LinkState
    requires delay { before.now.delay ≤ totals.now.delay }
    requires on { totals.now.left ≤ totals.now.entered }
    ensures { result ≡ next_state before.now totals.now second }
{
    let queue = totals.delay - before.delay;
    LinkState {
        delay: totals.delay,
        queue,
        on: totals.entered - totals.left,
        peak: next_peak(before.peak, queue, second),
    }
}

/// The longest queue, where this is the one at a second and that the longest before.
fn next_peak(peak: Peak, queue: u64, second: u32) -> Peak
    ensures { result ≡ next_peak peak queue second }
{
    if peak.queue < queue {
        Peak { queue, second }
    } else {
        peak
    }
}
