//! What is next after entries.

ghost use Rattle.std.specs.Prelude.{◌≡◌, ◌+◌, ◌*◌, ◌<◌, ◌≤◌, [], ◌∷◌, All, IfOk, false, length, true};
ghost use Rattle.dp_certificate.specs.{Certificates.AreRising, Certificates.IsEntry, Places.IsPlace};
ghost use Rattle.parallel_dp.specs.{Next.AreReachedBy, Next.HasKeyAt, Next.HasNoKeyAt, Next.IsPutInEither, Pieces.IsJoinOf, Pieces.IsNextOf};

use crate::join_pieces;
use crate::joins::{cheaper, law_of_keys};
use dp_certificate::{Entry, next_after, place_of};
use foundation::steps::Steps;
use schedule_meaning::Instance;
use std::alloc::{AllocError, Global};
use std::sync::ledger::Ledger;

/// What is next after the entries of a piece: the keys that one fit serving from one of them reaches, each once, with the
/// least delay, in their order. Each entry is within its bounds.
///
/// There are at most as many servings as phases for each entry. `Err`: out of memory.
///
/// docs/RULES.md, "Layers in pieces".
pub fn extend<L: Ledger>(
    alloc: Global,
    i: &Instance,
    piece: &[Entry],
    steps: &mut Steps<L>,
) -> Result<Vec<Entry>, AllocError>
    requires { All (IsEntry i.now) piece.now }
    ensures next { IfOk result (λ v. IsNextOf i.now piece.now v.items) }
    ensures servings { steps.new ≤ steps.old + length i.now.plan * length piece.now }
{
    let mut next = Vec::new(alloc);
    for phase in 0..i.plan().count() {
        let by_phase = next_by(alloc, i, piece, phase, steps)?;
        next = join_pieces(alloc, next, by_phase)?;
    }
    Ok(next)
}

/// What is next after the entries of a piece by one phase: in greens that go on, whose keys come in their order, and in new
/// ones, whose keys mostly do.
fn next_by<L: Ledger>(
    alloc: Global,
    i: &Instance,
    piece: &[Entry],
    phase: u8,
    steps: &mut Steps<L>,
) -> Result<Vec<Entry>, AllocError>
    requires phase { phase < length i.now.plan }
    requires few { length i.now.plan ≤ 4 }
    requires entries { All (IsEntry i.now) piece.now }
    ensures next { IfOk result (λ v. AreReachedBy i.now piece.now (length piece.now) phase v.items) }
    ensures servings { steps.new ≤ steps.old + length piece.now }
{
    let mut kept = Vec::with_capacity(alloc, piece.len())?;
    let mut anew = Vec::with_capacity(alloc, piece.len())?;
    let mut near = 0;
    for entry in piece {
        if let Some(after) = next_after(i, entry, phase, steps) {
            let goes_on = entry.phase == phase;
            near = put_in_either(&mut kept, &mut anew, after, goes_on, near)?;
        }
    }
    join_pieces(alloc, kept, anew)
}

/// Puts an entry among those of greens that go on, or among those of new ones. Its place is sought from the end on, or from
/// the place of the last one that was put among the latter, which it gives.
fn put_in_either(
    kept: &mut Vec<Entry>,
    anew: &mut Vec<Entry>,
    entry: Entry,
    goes_on: bool,
    near: usize,
) -> Result<usize, AllocError>
    requires kept { AreRising kept.old.items }
    requires anew { AreRising anew.old.items }
    ensures { IfOk result (λ place. IsPutInEither kept.old.items anew.old.items entry kept.new.items anew.new.items) }
{
    if goes_on {
        let end = kept.len();
        put_in(kept, entry, end)?;
        Ok(near)
    } else {
        put_in(anew, entry, near)
    }
}

/// Puts an entry among others in the order of their keys; of two with one key the cheaper stays. It gives its place, which
/// is sought from this one on.
fn put_in(entries: &mut Vec<Entry>, entry: Entry, near: usize) -> Result<usize, AllocError>
    requires { AreRising entries.old.items }
    ensures { IfOk result (λ place. IsJoinOf entries.old.items (entry ∷ []) entries.new.items) }
{
    let place = place_of(entries.as_slice(), &entry, near);
    if has_key_at(entries.as_slice(), &entry, place) {
        entries[place] = cheaper(&entries[place], &entry);
        return Ok(place);
    }
    entries.insert(place, entry)?;
    Ok(place)
}

/// Whether an entry with this key stands at its place.
pub(crate) fn has_key_at(entries: &[Entry], key: &Entry, place: usize) -> bool
    requires { IsPlace entries.now key.now place }
    ensures some { result ≡ true → HasKeyAt entries.now key.now place }
    ensures none { result ≡ false → HasNoKeyAt entries.now key.now place }
{
    if place == entries.len() {
        return false;
    }
    let there = &entries[place];
    if key.is_before(there) {
        return false;
    }
    law_of_keys(key, there);
    true
}
