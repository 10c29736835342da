//! A gate in which the readings of two nodes look out for each other.
use super::reaches;
use board_model::Gate;
use foundation::threads::CrossesThreads;
use std::sync::Wait;
use std::sync::atomic::{AtomicU64, Ordering};
use std::thread::Threads;

/// How often a node that reads looks out for the other one, before it goes on without it.
const LOOKS_OUT: u32 = 200_000_000;

/// Where two readings look out for each other.
#[derive(Clone, Copy, PartialEq, Eq)]
pub(crate) enum Place {
    /// Right before them: neither holds a turn, so no third node waits for one.
    Before,
    /// Inside them, while both hold a turn.
    Inside,
}

/// A gate for two nodes, each with the link that it reads. At its reading of that link each looks out for the other node at its own in
/// the same round. Where the other one does not come in some time, it goes on: a miss.
///
/// Each of the two reads one link in a round, once and before it publishes.
#[derive(Drop)]
pub(crate) struct MeetingGate {
    place: Place,
    first: Reader,
    second: Reader,
    missed: AtomicU64,
    announced: AtomicU64,
}

impl CrossesThreads for MeetingGate {}

impl MeetingGate {
    /// The gate for two nodes, each with the link that it reads, which meet at this place.
    pub(crate) fn new(place: Place, first: (u32, u32), second: (u32, u32)) -> Self {
        MeetingGate {
            place,
            first: Reader::new(first),
            second: Reader::new(second),
            missed: AtomicU64::new(0),
            announced: AtomicU64::new(0),
        }
    }

    /// How often the first node was at its reading, how often the second, how often one looked out in vain, and how many board
    /// steps of the two were announced before they came, each with its node, round and link.
    pub(crate) fn met(&self) -> [u64; 4] {
        let counters = [
            &self.first.readings,
            &self.second.readings,
            &self.missed,
            &self.announced,
        ];
        counters.map(|counter| counter.load(Ordering::SeqCst))
    }

    /// A node that is at this place of its reading of a link looks out for the other node, if the two meet there.
    fn look_out(&self, place: Place, node: u32, link: u32) {
        let is_met = if place != self.place {
            true
        } else if self.first.reads(node, link) {
            self.first.meets(&self.second)
        } else if self.second.reads(node, link) {
            self.second.meets(&self.first)
        } else {
            true
        };
        if !is_met {
            self.missed.fetch_add(1, Ordering::SeqCst);
        }
    }
}

impl Gate for MeetingGate {
    fn before<R: Threads + Wait + Sync>(
        &self,
        _rt: &R,
        node: u32,
        round: u32,
        link: u32,
        publish: bool,
    ) {
        if self.first.expects(node, round, link, publish)
            || self.second.expects(node, round, link, publish)
        {
            self.announced.fetch_add(1, Ordering::SeqCst);
        }
        if !publish {
            self.look_out(Place::Before, node, link);
        }
    }

    fn inside<R: Threads + Wait + Sync>(&self, _rt: &R, node: u32, link: u32, publish: bool) {
        if !publish {
            self.look_out(Place::Inside, node, link);
        }
    }
}

/// A node, the link that it reads, and how often it was inside a reading of it.
#[derive(Drop)]
struct Reader {
    node: u32,
    link: u32,
    readings: AtomicU64,
}

impl Reader {
    /// The node with its link, before any reading.
    fn new((node, link): (u32, u32)) -> Self {
        Reader {
            node,
            link,
            readings: AtomicU64::new(0),
        }
    }

    /// Whether this node reads this link.
    fn reads(&self, node: u32, link: u32) -> bool {
        node == self.node && link == self.link
    }

    /// Whether the node's next board step may be this one: its reading of the round, or a publishing after it.
    fn expects(&self, node: u32, round: u32, link: u32, publish: bool) -> bool {
        let is_step = if publish {
            node == self.node && link != self.link
        } else {
            self.reads(node, link)
        };
        is_step && self.readings.load(Ordering::SeqCst) == u64::from(round) + u64::from(publish)
    }

    /// Counts a reading, and looks at the other node until it has as many. Whether it had.
    fn meets(&self, other: &Reader) -> bool {
        let number = self.readings.fetch_add(1, Ordering::SeqCst).wrapping_add(1);
        reaches(&other.readings, number, LOOKS_OUT)
    }
}
