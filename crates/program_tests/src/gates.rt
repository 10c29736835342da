//! Gates of boards, in which the calls of nodes look out for each other.
pub(crate) mod holding;
pub(crate) mod meeting;

use std::hint::spin_loop;
use std::sync::atomic::{AtomicU64, Ordering};
use std::thread;

/// After how many looks a node yields.
const LOOKS_PER_YIELD: u32 = 1_000;

/// Whether a counter has this number, in some looks.
pub(crate) fn reaches(counter: &AtomicU64, number: u64, looks: u32) -> bool {
    for look in 0..looks {
        if counter.load(Ordering::SeqCst) >= number {
            return true;
        }
        if look % LOOKS_PER_YIELD == 0 {
            thread::yield_now();
        } else {
            spin_loop();
        }
    }
    false
}

/// How often a counter is looked at that has to reach a number, before one goes on without it.
const LOOKS_OUT: u32 = 50_000_000;

/// Waits until a counter has this number. Where that does not come in some time it counts a miss, and after a miss it does not wait.
pub(crate) fn wait_for(counter: &AtomicU64, number: u64, missed: &AtomicU64) {
    if missed.load(Ordering::SeqCst) == 0 && !reaches(counter, number, LOOKS_OUT) {
        missed.fetch_add(1, Ordering::SeqCst);
    }
}
