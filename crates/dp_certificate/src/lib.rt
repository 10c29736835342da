//! The entries of a table of least delays, and certificates: an answer with the entries that are to prove it.
#![tactic(auto)]

mod certificates;
mod fault_codes;
mod lower_bound;
mod next_entry;
mod places;

pub use certificates::{CertFault, Certificate, list_lengths};
use foundation::threads::CrossesThreads;
pub use lower_bound::{RemainingCost, rest_of};
pub use next_entry::{is_all_served, next_after, serve_next};
pub use places::place_of;

/// One entry of a table of least delays: a key, which is what decides how a plan can go on, with a delay.
///
/// docs/RULES.md, "Table".
#[derive(Debug, Clone, Copy, PartialEq, Eq)]
pub struct Entry {
    /// How many clusters of each phase are served; 0 for a phase past the last.
    pub counts: [u8; 4],
    /// The phase that is green.
    pub phase: u8,
    /// The second at which its green began.
    pub since: u32,
    /// The second from which on the green is free.
    pub at: u32,
    /// A delay, in thousandths of a vehicle times weight times seconds.
    pub delay: u64,
}

impl Entry {
    ghost use Rattle.std.specs.Prelude.{◌↔◌, IsTrue};
    ghost use Rattle.dp_certificate.specs.Certificates.{IsBefore, digits_of};

    /// Whether the key of this entry is below that of another: the first of the counts, phase and times that differs is
    /// less in this one.
    ///
    /// docs/RULES.md, "Certificate".
    pub fn is_before(&self, other: &Entry) -> bool
        ensures { IsTrue result ↔ IsBefore (digits_of self.now) (digits_of other.now) }
    {
        let [a0, a1, a2, a3] = self.counts;
        let [b0, b1, b2, b3] = other.counts;
        if a0 != b0 {
            return a0 < b0;
        }
        if a1 != b1 {
            return a1 < b1;
        }
        if a2 != b2 {
            return a2 < b2;
        }
        if a3 != b3 {
            return a3 < b3;
        }
        if self.phase != other.phase {
            return self.phase < other.phase;
        }
        if self.since != other.since {
            return self.since < other.since;
        }
        self.at < other.at
    }
}

impl CrossesThreads for Entry {}
