//! Looks for an entry by its key.

ghost use Rattle.std.specs.Prelude.{◌≡◌, ◌^◌, ◌<◌, ◌≤◌, ◌↔◌, IsTrue, length};
ghost use Rattle.dp_certificate.specs.{Certificates.AreRising, Proves.HasEntry, Proves.key_of_entry};
ghost use Rattle.cert_checker.specs.Places.{StandsAt};

use dp_certificate::{Entry, place_of};

/// Whether an entry has the key of this one and at most its delay. A place where it may stand is tested first, and the
/// one after it; else it is sought from there on. The place where it stands is noted.
pub(crate) fn has_entry(entries: &[Entry], next: &Entry, near: &mut u32) -> bool
    requires rising { AreRising entries.now }
    requires few { length entries.now < 2 ^ 32 }
    ensures { IsTrue result ↔ HasEntry entries.now (key_of_entry next.now) next.now.delay }
{
    let place = *near as usize;
    if stands_at(entries, place, next) {
        return true;
    }
    if stands_at(entries, place + 1, next) {
        *near += 1;
        return true;
    }
    let place = place_of(entries, next, place);
    *near = place as u32;
    stands_at(entries, place, next)
}

/// Whether at this place an entry has the key of another and at most its delay.
#[inline]
fn stands_at(entries: &[Entry], place: usize, next: &Entry) -> bool
    ensures { IsTrue result ↔ StandsAt entries.now place next.now }
{
    place < entries.len() && stands_for(&entries[place], next)
}

/// Whether an entry has the key of another and at most its delay.
fn stands_for(entry: &Entry, next: &Entry) -> bool
    ensures { IsTrue result ↔ (key_of_entry entry.now ≡ key_of_entry next.now) × (entry.now.delay ≤ next.now.delay) }
{
    entry.delay <= next.delay
        && entry.counts == next.counts
        && entry.phase == next.phase
        && entry.since == next.since
        && entry.at == next.at
}
