//! The pairs of nodes that have to be at their readings at the same time, in a network of five copies of the worked one.
use crate::gates::meeting::{MeetingGate, Place};
use std::thread::{Threads, available_parallelism};

/// How many copies the network has.
pub(crate) const COPIES: u32 = 5;

/// Two nodes of one copy, or of two, each with the link that it reads.
pub(crate) const PAIRS: &[[(u32, u32); 2]] = &[
    [(0, 2), (1, 1)],
    [(2, 7), (3, 6)],
    [(8, 22), (9, 21)],
    [(0, 2), (9, 21)],
    [(3, 6), (6, 17)],
];

/// Whether two nodes of a run can meet: the run has a thread for each processor, and one alone does node after node.
pub(crate) fn can_meet<R: Threads>(rt: &R) -> bool {
    match available_parallelism(rt) {
        Ok(processors) => processors.get() > 1,
        Err(_) => false,
    }
}

/// The gate in which two nodes meet, each with the link that it reads.
///
/// Those of one copy meet while both hold a turn. Those of two copies meet before they do: where there are two threads, the other one
/// may be at a third node, which waits for a turn that one of the two holds, and then the second of them is at its reading only after the first.
pub(crate) fn gate_of(first: (u32, u32), second: (u32, u32)) -> MeetingGate {
    let place = if first.0 / 2 == second.0 / 2 {
        Place::Inside
    } else {
        Place::Before
    };
    MeetingGate::new(place, first, second)
}

/// What the gate of a pair has met, and how many vehicles, in thousandths, entered.
pub(crate) type Played = ([u64; 4], u64);

/// What the gate has met after four rounds: each node's reading in each round, none in vain, and all board steps announced.
pub(crate) const MET: [u64; 4] = [4, 4, 0, 16];
