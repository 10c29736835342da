//! Where entries may be found. Nothing rests on a hint but time: each is tested where it is used.

use crate::search::has_entry;
use dp_certificate::{Entry, place_of};

/// How many places are kept for each of four phases: one for each second since which a green may last, modulo 1024.
const SECONDS: usize = 1024;

/// For each phase the places where the greens begin that are next after the counts of one entry, and where their
/// entries end.
#[derive(Drop)]
pub(crate) struct Hints {
    counts: Option<[u8; 4]>,
    places: [u32; 4 * SECONDS],
    ends: [u32; 4],
}

impl Hints {
    ghost use Rattle.std.specs.Prelude.{◌↔◌, ◌^◌, ◌<◌, ◌≤◌, IsTrue, length};
    ghost use Rattle.dp_certificate.specs.{Certificates.AreRising, Proves.HasEntry, Proves.key_of_entry};

    /// No places are known.
    pub(crate) fn new() -> Hints {
        Hints {
            counts: None,
            places: [0; 4 * SECONDS],
            ends: [0; 4],
        }
    }

    /// Notes the places after these counts, where they are not those of the entry before.
    pub(crate) fn turn_to(&mut self, entries: &[Entry], counts: &[u8; 4])
        requires { length entries.now < 2 ^ 32 }
    {
        if self.counts == Some(*counts) {
            return;
        }
        self.counts = Some(*counts);
        for phase in 0..4 {
            self.note(entries, counts, phase);
        }
    }

    /// Notes the places after these counts by one phase.
    fn note(&mut self, entries: &[Entry], counts: &[u8; 4], phase: u8)
        requires few { length entries.now < 2 ^ 32 }
        requires phase { phase < 4 }
    {
        let mut counts = *counts;
        counts[phase as usize] = counts[phase as usize].saturating_add(1);
        let group = Entry {
            counts,
            phase,
            since: 0,
            at: 0,
            delay: 0,
        };
        let start = place_of(entries, &group, self.ends[phase as usize] as usize);
        self.ends[phase as usize] = self.note_group(entries, &group, start);
    }

    /// Notes where each green of a group begins, whose entries stand from this place on; and where the group ends.
    fn note_group(&mut self, entries: &[Entry], group: &Entry, start: usize) -> u32
        requires few { length entries.now < 2 ^ 32 }
        requires phase { group.now.phase < 4 }
        requires start { start ≤ length entries.now }
        ensures { result ≤ length entries.now }
    {
        let mut since = u32::MAX;
        for place in start..entries.len() {
            let entry = &entries[place];
            if entry.counts != group.counts || entry.phase != group.phase {
                return place as u32;
            }
            if entry.since != since {
                since = entry.since;
                self.places[SECONDS * group.phase as usize + since as usize % SECONDS] =
                    place as u32;
            }
        }
        entries.len() as u32
    }

    /// Whether an entry has the key of this one and at most its delay.
    pub(crate) fn has_entry(&mut self, entries: &[Entry], next: &Entry) -> bool
        requires rising { AreRising entries.now }
        requires few { length entries.now < 2 ^ 32 }
        requires phase { next.now.phase < 4 }
        ensures { IsTrue result ↔ HasEntry entries.now (key_of_entry next.now) next.now.delay }
    {
        let index = SECONDS * next.phase as usize + next.since as usize % SECONDS;
        has_entry(entries, next, &mut self.places[index])
    }
}
