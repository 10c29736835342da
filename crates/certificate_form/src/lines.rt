//! Reading an entry's line from the front of the bytes, and as many as follow one another.

ghost use Rattle.std.specs.Prelude.{◌≡◌, ◌+◌, ◌^◌, ◌<◌, ◌≤◌, length, take, drop, IfOk, IfSome, None};
ghost use Rattle.std.specs.Option.{option_map};
ghost use Rattle.text_lines.specs.{Fields.field_at, Many.many_at};
ghost use Rattle.instance_form.specs.Lines.{seen};
ghost use Rattle.certificate_form.specs.Lines.{IsFrontText, entry_after_at, count_at, entry_line_at, front_at};

use dp_certificate::Entry;
use std::alloc::{AllocError, Global};
use text_lines::{field_u8, field_u32, field_u64, literal};

/// A count, where there is one, and else 0; and the bytes after it.
#[tactic(auto, unfolding(crate::specs::Lines::count_at))]
fn count(there: bool, bytes: &[u8]) -> Option<(u8, &[u8])>
    ensures exact { option_map seen result ≡ count_at there bytes.now }
    ensures shorter { IfSome result (λ x. length x.1.now ≤ length bytes.now) }
{
    if there {
        field_u8(b' ', bytes)
    } else {
        Some((0, bytes))
    }
}

/// The counts and the phase at the front of an entry's line.
#[derive(Clone, Copy)]
struct Front {
    counts: [u8; 4],
    phase: u8,
}

/// The front of an entry's line in an instance with this many phases, and the bytes after it.
#[tactic(auto, unfolding(crate::specs::Lines::front_at))]
fn entry_front(phases: u8, bytes: &[u8]) -> Option<(Front, &[u8])>
    ensures exact { option_map seen result ≡ front_at phases bytes.now }
    ensures shorter { IfSome result (λ x. length x.1.now < length bytes.now) }
{
    let rest = literal("entry ", bytes)?;
    let (first, rest) = count(0 < phases, rest)?;
    let (second, rest) = count(1 < phases, rest)?;
    let (third, rest) = count(2 < phases, rest)?;
    let (fourth, rest) = count(3 < phases, rest)?;
    let (phase, rest) = field_u8(b' ', rest)?;
    let counts = [first, second, third, fourth];
    Some((Front { counts, phase }, rest))
}

/// The front of an entry's line, and how many bytes it has. Where the bytes begin as the line before did, its front is
/// not read again.
fn next_front(phases: u8, last: Option<(Front, &[u8])>, bytes: &[u8]) -> Option<(Front, usize)>
    requires { IfSome last (λ x. IsFrontText phases x.0 x.1.now) }
    ensures within { IfSome result (λ x. x.1 ≤ length bytes.now) }
    ensures exact { option_map (λ x. (x.0, drop x.1 bytes.now)) result ≡ front_at phases bytes.now }
    ensures again { IfSome result (λ x. IsFrontText phases x.0 (take x.1 bytes.now)) }
{
    if let Some((front, text)) = last {
        if bytes.starts_with(text) {
            return Some((front, text.len()));
        }
    }
    let (front, rest) = entry_front(phases, bytes)?;
    Some((front, bytes.len() - rest.len()))
}

/// The entry with this front, from the bytes after the front, and the bytes after its line.
#[tactic(auto, unfolding(crate::specs::Lines::entry_after_at))]
fn entry_after_front(front: Front, bytes: &[u8]) -> Option<(Entry, &[u8])>
    ensures exact { option_map seen result ≡ entry_after_at front bytes.now }
    ensures shorter { IfSome result (λ x. length x.1.now < length bytes.now) }
{
    let (since, rest) = field_u32(b' ', bytes)?;
    let (at, rest) = field_u32(b' ', rest)?;
    let (delay, rest) = field_u64(b'\n', rest)?;
    let counts = front.counts;
    let entry = Entry {
        counts,
        phase: front.phase,
        since,
        at,
        delay,
    };
    Some((entry, rest))
}

/// The entries of an instance with this many phases, as many as follow one another, and the bytes after them.
///
/// docs/FORMATS.md, "Certificate text".
pub(crate) fn entry_lines(
    alloc: Global,
    phases: u8,
    bytes: &[u8],
) -> Result<(Vec<Entry>, &[u8]), AllocError>
    ensures exact { IfOk result (λ x. many_at (entry_line_at phases) (length bytes.now) bytes.now
        ≡ (x.0.items, x.1.now)) }
    ensures few { IfOk result (λ x. length x.0.items + length x.1.now ≤ length bytes.now) }
    ensures stop { IfOk result (λ x. entry_line_at phases x.1.now ≡ None) }
{
    let mut entries = Vec::new(alloc);
    let mut rest = bytes;
    let mut last = None;
    while let Some((front, end)) = next_front(phases, last, rest) {
        let Some((entry, after)) = entry_after_front(front, &rest[end..]) else {
            break;
        };
        entries.push(entry)?;
        last = Some((front, &rest[..end]));
        rest = after;
    }
    Ok((entries, rest))
}

/// The numbers with a space after each, as many as follow one another, and the bytes after them.
pub(crate) fn spaced_numbers(alloc: Global, bytes: &[u8]) -> Result<(Vec<u8>, &[u8]), AllocError>
    ensures exact { IfOk result (λ x. many_at (field_at (2 ^ 8) 32) (length bytes.now) bytes.now
        ≡ (x.0.items, x.1.now)) }
    ensures few { IfOk result (λ x. length x.0.items + length x.1.now ≤ length bytes.now) }
{
    let mut numbers = Vec::new(alloc);
    let mut rest = bytes;
    while let Some((number, after)) = field_u8(b' ', rest) {
        numbers.push(number)?;
        rest = after;
    }
    Ok((numbers, rest))
}
