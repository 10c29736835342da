//! A gate in which one node stays inside its call until two others wait for the turn.
use super::{reaches, wait_for};
use board_model::Gate;
use foundation::threads::CrossesThreads;
use std::sync::Wait;
use std::sync::atomic::{AtomicU64, Ordering};
use std::thread::Threads;

/// How many nodes wait while node 0 is inside its call.
const WAITERS: u64 = 2;

/// How often node 0 looks for what may not come. In that time the others fall asleep.
const LOOKS_INSIDE: u32 = 20_000;

/// A gate for nodes 0, 1 and 2 at one link, in rounds of a reading and a publishing each. Inside each call node 0 looks until nodes 1
/// and 2 are about to make theirs, and then some more whether one of those ends, which it may not: that one has *slipped*. Node 0 makes
/// its next call once theirs have ended. What does not come in some time is *missed*, and from then on nothing is waited for.
#[derive(Drop)]
pub(crate) struct HoldingGate {
    link: u32,
    held: AtomicU64,
    begun: AtomicU64,
    ended: AtomicU64,
    readings: AtomicU64,
    publishings: AtomicU64,
    slipped: AtomicU64,
    missed: AtomicU64,
}

impl CrossesThreads for HoldingGate {}

impl HoldingGate {
    /// The gate for a link.
    pub(crate) fn new(link: u32) -> Self {
        HoldingGate {
            link,
            held: AtomicU64::new(0),
            begun: AtomicU64::new(0),
            ended: AtomicU64::new(0),
            readings: AtomicU64::new(0),
            publishings: AtomicU64::new(0),
            slipped: AtomicU64::new(0),
            missed: AtomicU64::new(0),
        }
    }

    /// How often a node was inside a reading of the link, how often inside a publishing, how many calls of nodes 1 and 2 ended, how
    /// often one slipped, and how often one was missed.
    pub(crate) fn counts(&self) -> [u64; 5] {
        let counters = [
            &self.readings,
            &self.publishings,
            &self.ended,
            &self.slipped,
            &self.missed,
        ];
        counters.map(|counter| counter.load(Ordering::SeqCst))
    }

    /// The node's call has ended.
    pub(crate) fn end(&self, node: u32) {
        if node != 0 {
            self.ended.fetch_add(1, Ordering::SeqCst);
        }
    }

    /// Node 0 is inside its call.
    fn hold(&self) {
        let ended = self
            .held
            .fetch_add(1, Ordering::SeqCst)
            .wrapping_mul(WAITERS);
        wait_for(&self.begun, ended.wrapping_add(WAITERS), &self.missed);
        if reaches(&self.ended, ended.wrapping_add(1), LOOKS_INSIDE) {
            self.slipped.fetch_add(1, Ordering::SeqCst);
        }
    }
}

impl Gate for HoldingGate {
    fn before<R: Threads + Wait + Sync>(
        &self,
        _rt: &R,
        node: u32,
        round: u32,
        _link: u32,
        publish: bool,
    ) {
        let calls = u64::from(round)
            .wrapping_mul(2)
            .wrapping_add(u64::from(publish));
        if node == 0 {
            wait_for(&self.ended, calls.wrapping_mul(WAITERS), &self.missed);
        } else {
            wait_for(&self.held, calls.wrapping_add(1), &self.missed);
            self.begun.fetch_add(1, Ordering::SeqCst);
        }
    }

    fn inside<R: Threads + Wait + Sync>(&self, _rt: &R, node: u32, link: u32, publish: bool) {
        if link == self.link {
            let counter = if publish {
                &self.publishings
            } else {
                &self.readings
            };
            counter.fetch_add(1, Ordering::SeqCst);
        }
        if node == 0 {
            self.hold();
        }
    }
}
