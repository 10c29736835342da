//! Two lists of entries joined into one.

ghost use Rattle.std.specs.Prelude.{◌≡◌, ◌<◌, ◌≤◌, ◌+◌, ◌⊎◌, ◌++◌, List, length, IfOk};
ghost use Rattle.schedule_meaning.specs.Instances.{Problem};
ghost use Rattle.dp_certificate.specs.{Certificates.AreRising, Certificates.IsBefore, Certificates.digits_of, Certificates.entry_at, Proves.key_of_entry, declared.Entry.Entry as Line};
ghost use Rattle.parallel_dp.specs.{Joins.EndsBefore, Joins.IsJoining, Pieces.IsJoinOf, Pieces.IsNextOf};

use dp_certificate::{Entry, place_of};
use std::alloc::{AllocError, Global};
use std::cmp::Ordering;

/// The law of pieces: the join of what is next after two lists is what is next after both as one. So it is the same
/// list, however the entries are cut into pieces. It does nothing when it runs.
///
/// docs/RULES.md, "Layers in pieces".
pub fn law_of_pieces()
    ensures joined { (p : Problem) (xs ys a b joined : List Line) → IsNextOf p xs a → IsNextOf p ys b
        → IsJoinOf a b joined → IsNextOf p (xs ++ ys) joined }
    ensures same { (p : Problem) (xs ys a b joined next : List Line) → IsNextOf p xs a → IsNextOf p ys b
        → IsJoinOf a b joined → IsNextOf p (xs ++ ys) next → next ≡ joined }
    ensures only { (p : Problem) (xs one other : List Line) → IsNextOf p xs one → IsNextOf p xs other
        → one ≡ other }
{}

/// Two lists of entries as one: their keys, each once, with the least delay. The keys of each list rise.
/// `Err`: out of memory.
///
/// docs/RULES.md, "Layers in pieces".
pub fn join_pieces(alloc: Global, a: Vec<Entry>, b: Vec<Entry>) -> Result<Vec<Entry>, AllocError>
    requires first { AreRising a.items }
    requires second { AreRising b.items }
    ensures { IfOk result (λ v. IsJoinOf a.items b.items v.items) }
{
    if a.is_empty() {
        return Ok(b);
    }
    if b.is_empty() {
        return Ok(a);
    }
    join(alloc, a.as_slice(), b.as_slice())
}

/// Two lists as one: of the list with the first key all entries before the first key of the other are taken at once.
pub(crate) fn join(alloc: Global, a: &[Entry], b: &[Entry]) -> Result<Vec<Entry>, AllocError>
    requires first { AreRising a.now }
    requires second { AreRising b.now }
    ensures { IfOk result (λ v. IsJoinOf a.now b.now v.items) }
{
    let mut joined = Vec::new(alloc);
    joined.reserve(a.len() + b.len())?;
    let mut left = 0;
    let mut right = 0;
    while left < a.len() && right < b.len() {
        let (after_left, after_right) = take_first(a, b, left, right, &mut joined)?;
        left = after_left;
        right = after_right;
    }
    joined.extend_from_slice(&a[left..])?;
    joined.extend_from_slice(&b[right..])?;
    Ok(joined)
}

/// Appends to what is joined what comes first of two lists from these places on: the entries of one before all others, or
/// the one of a key that both have, with the least delay. It gives the places after it.
fn take_first(
    a: &[Entry],
    b: &[Entry],
    left: usize,
    right: usize,
    joined: &mut Vec<Entry>,
) -> Result<(usize, usize), AllocError>
    requires inside { (left < length a.now) × (right < length b.now) }
    requires first { AreRising a.now }
    requires second { AreRising b.now }
    requires so_far { IsJoining a.now b.now left right joined.old.items }
    ensures joined { IfOk result (λ after. IsJoining a.now b.now after.0 after.1 joined.new.items) }
    ensures goes_on { IfOk result (λ after. left + right < after.0 + after.1) }
{
    match order(&a[left], &b[right]) {
        Ordering::Less => {
            let end = end_before(a, left, &b[right]);
            joined.extend_from_slice(&a[left..end])?;
            Ok((end, right))
        }
        Ordering::Greater => {
            let end = end_before(b, right, &a[left]);
            joined.extend_from_slice(&b[right..end])?;
            Ok((left, end))
        }
        Ordering::Equal => {
            joined.push(cheaper(&a[left], &b[right]))?;
            Ok((left + 1, right + 1))
        }
    }
}

/// Where the entries before a key end, from the place of one of them on.
fn end_before(entries: &[Entry], place: usize, key: &Entry) -> usize
    requires rising { AreRising entries.now }
    requires inside { place < length entries.now }
    requires before { IsBefore (digits_of (entry_at entries.now place)) (digits_of key.now) }
    ensures { EndsBefore entries.now place key.now result }
{
    place_of(entries, key, place + 1)
}

/// How the keys of two entries stand.
pub(crate) fn order(first: &Entry, second: &Entry) -> Ordering
    ensures less { result ≡ Ordering.Less → IsBefore (digits_of first.now) (digits_of second.now) }
    ensures greater { result ≡ Ordering.Greater → IsBefore (digits_of second.now) (digits_of first.now) }
    ensures same { result ≡ Ordering.Equal → key_of_entry first.now ≡ key_of_entry second.now }
{
    if first.is_before(second) {
        return Ordering::Less;
    }
    if second.is_before(first) {
        return Ordering::Greater;
    }
    law_of_keys(first, second);
    Ordering::Equal
}

/// Of two entries neither of which is before the other the keys are the same.
pub(crate) fn law_of_keys(first: &Entry, second: &Entry)
    ensures { (IsBefore (digits_of first.now) (digits_of second.now) → ⊥)
        → (IsBefore (digits_of second.now) (digits_of first.now) → ⊥)
        → key_of_entry first.now ≡ key_of_entry second.now }
{
    let _ = first.counts[0];
    let _ = second.counts[0];
}

/// Of two entries the one with less delay.
pub(crate) fn cheaper(first: &Entry, second: &Entry) -> Entry
    ensures either { (result ≡ first.now) ⊎ (result ≡ second.now) }
    ensures first { result.delay ≤ first.now.delay }
    ensures second { result.delay ≤ second.now.delay }
{
    if second.delay < first.delay {
        *second
    } else {
        *first
    }
}
