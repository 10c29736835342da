//! Where a key is among entries that rise.

ghost use Rattle.std.specs.Prelude.{◌<◌, ◌≤◌, length};
ghost use Rattle.dp_certificate.specs.{Certificates.IsBefore, Certificates.digits_of, Certificates.entry_at, Places.IsPlace, Places.IsSpan};

use super::Entry;

/// The place of the entry with this key among entries that rise, if there is one: the entries below it have keys before
/// this one. It is sought from a place on in steps that double.
///
/// docs/RULES.md, "Certificate".
pub fn place_of(entries: &[Entry], key: &Entry, near: usize) -> usize
    ensures { IsPlace entries.now key.now result }
{
    let (low, high) = if near < entries.len() && entries[near].is_before(key) {
        spread_up(entries, key, near)
    } else {
        spread_down(entries, key, near.min(entries.len()))
    };
    narrow(entries, key, low, high)
}

/// A span with the place of a key, above an entry whose key is before it.
fn spread_up(entries: &[Entry], key: &Entry, near: usize) -> (usize, usize)
    requires within { near < length entries.now }
    requires before { IsBefore (digits_of (entry_at entries.now near)) (digits_of key.now) }
    ensures { IsSpan entries.now key.now result.0 result.1 }
{
    let mut low = near + 1;
    let mut step = 1;
    while step < entries.len() - low {
        if !entries[low + step].is_before(key) {
            return (low, low + step);
        }
        low += step + 1;
        step *= 2;
    }
    (low, entries.len())
}

/// A span with the place of a key, up to an entry whose key is not before it, or up to the end.
fn spread_down(entries: &[Entry], key: &Entry, near: usize) -> (usize, usize)
    requires within { near ≤ length entries.now }
    requires here { near < length entries.now → ¬ IsBefore (digits_of (entry_at entries.now near)) (digits_of key.now) }
    ensures { IsSpan entries.now key.now result.0 result.1 }
{
    let mut high = near;
    let mut step = 1;
    while step < high {
        if entries[high - step].is_before(key) {
            return (high - step + 1, high);
        }
        high -= step;
        step *= 2;
    }
    (0, high)
}

/// The place of a key in a span, by halves.
fn narrow(entries: &[Entry], key: &Entry, low: usize, high: usize) -> usize
    requires { IsSpan entries.now key.now low high }
    ensures { IsPlace entries.now key.now result }
{
    let mut low = low;
    let mut high = high;
    while low < high {
        let middle = low + (high - low) / 2;
        if entries[middle].is_before(key) {
            low = middle + 1;
        } else {
            high = middle;
        }
    }
    low
}
