//! Reading one line from the front of the bytes.

ghost use Rattle.std.specs.Prelude.{◌≡◌, ◌+◌, ◌<◌, ◌≤◌, length, IfSome};
ghost use Rattle.std.specs.Char.{IsAsciiDigit};
ghost use Rattle.std.specs.Option.{option_map};
ghost use Rattle.instance_form.specs.Lines.{seen, version_line_at, count_line_at, times_end, mark_at, phase_line_at, freshness_at, head_line_at, load_at, cluster_line_at};

use crate::form::Version;
use phase_plan::Phase;
use switch_rules::{Cluster, Head};
use text_lines::{field_u8, field_u32, literal};

/// The version that the first line says, and the bytes after the line.
///
/// docs/FORMATS.md, "Instance text".
#[tactic(auto, unfolding(crate::specs::Lines::value_at))]
pub fn version_line(bytes: &[u8]) -> Option<(Version, &[u8])>
    ensures exact { option_map seen result ≡ version_line_at bytes.now }
    ensures shorter { IfSome result (λ x. length x.1.now + 11 ≤ length bytes.now) }
{
    if let Some(rest) = literal("instance 1\n", bytes) {
        return Some((Version::One, rest));
    }
    if let Some(rest) = literal("instance 2\n", bytes) {
        return Some((Version::Two, rest));
    }
    if let Some(rest) = literal("instance 3\n", bytes) {
        return Some((Version::Three, rest));
    }
    if let Some(rest) = literal("instance 4\n", bytes) {
        return Some((Version::Four, rest));
    }
    let rest = literal("instance 5\n", bytes)?;
    Some((Version::Five, rest))
}

/// The number of phases, 2 to 4, and the bytes after its line.
///
/// docs/FORMATS.md, "Instance text".
#[tactic(auto, unfolding(crate::specs::Lines::count_line_at))]
pub fn count_line(bytes: &[u8]) -> Option<(u8, &[u8])>
    ensures exact { option_map seen result ≡ count_line_at bytes.now }
    ensures bounds { IfSome result (λ x. (2 ≤ x.0) × (x.0 ≤ 4)) }
    ensures shorter { IfSome result (λ x. length x.1.now < length bytes.now) }
{
    let rest = literal("phases ", bytes)?;
    let (count, rest) = field_u8(b'\n', rest)?;
    if count >= 2 && count <= 4 {
        Some((count, rest))
    } else {
        None
    }
}

/// A phase, and the bytes after its line.
///
/// docs/FORMATS.md, "Instance text".
#[tactic(auto, unfolding(crate::specs::Lines::phase_line_at, crate::specs::Lines::numbers_at))]
pub fn phase_line(version: Version, bytes: &[u8]) -> Option<(Phase, &[u8])>
    ensures exact { option_map seen result ≡ phase_line_at version bytes.now }
    ensures shorter { IfSome result (λ x. length x.1.now < length bytes.now) }
{
    let rest = literal("phase ", bytes)?;
    let (least, rest) = field_u32(b' ', rest)?;
    let (greatest, rest) = field_u32(b' ', rest)?;
    let (yellow, rest) = field_u32(b' ', rest)?;
    let (clear, rest) = field_u32(b' ', rest)?;
    let (loss, rest) = field_u32(b' ', rest)?;
    let (wait, rest) = field_u32(times_end(version), rest)?;
    let (skip, rest) = mark(version, rest)?;
    let phase = Phase {
        least,
        greatest,
        yellow,
        clear,
        loss,
        wait,
        skip,
    };
    Some((phase, rest))
}

/// The byte after the times of a phase.
fn times_end(version: Version) -> u8
    ensures value { result ≡ times_end version }
    ensures apart { ¬ IsAsciiDigit result }
{
    match version {
        Version::One => b'\n',
        Version::Two | Version::Three | Version::Four | Version::Five => b' ',
    }
}

/// The mark of a phase, which version 1 does not say, and the bytes after its line. In version 4 each phase is marked.
#[tactic(auto, unfolding(crate::specs::Lines::value_at))]
fn mark(version: Version, bytes: &[u8]) -> Option<(bool, &[u8])>
    ensures exact { option_map seen result ≡ mark_at version bytes.now }
    ensures shorter { IfSome result (λ x. length x.1.now ≤ length bytes.now) }
{
    match version {
        Version::One => return Some((false, bytes)),
        Version::Two | Version::Three | Version::Four | Version::Five => {}
    }
    if let Some(rest) = literal("skip\n", bytes) {
        return Some((true, rest));
    }
    match version {
        Version::One | Version::Two | Version::Three | Version::Five => {}
        Version::Four => return None,
    }
    let rest = literal("ring\n", bytes)?;
    Some((false, rest))
}

/// The head, and the bytes after its line.
///
/// docs/FORMATS.md, "Instance text".
#[tactic(auto, unfolding(crate::specs::Lines::head_line_at, crate::specs::Lines::numbers_at))]
pub fn head_line(bytes: &[u8]) -> Option<(Head, &[u8])>
    ensures exact { option_map seen result ≡ head_line_at bytes.now }
    ensures shorter { IfSome result (λ x. length x.1.now < length bytes.now) }
{
    let rest = literal("head ", bytes)?;
    let (phase, rest) = field_u8(b' ', rest)?;
    let (since, rest) = field_u32(b' ', rest)?;
    let (at, rest) = field_u32(b' ', rest)?;
    let (fresh, rest) = freshness(rest)?;
    let head = Head {
        phase,
        since,
        at,
        fresh,
    };
    Some((head, rest))
}

/// Whether a head is fresh, and the bytes after its line.
#[tactic(auto, unfolding(crate::specs::Lines::value_at))]
fn freshness(bytes: &[u8]) -> Option<(bool, &[u8])>
    ensures exact { option_map seen result ≡ freshness_at bytes.now }
    ensures shorter { IfSome result (λ x. length x.1.now < length bytes.now) }
{
    if let Some(rest) = literal("fresh\n", bytes) {
        return Some((true, rest));
    }
    let rest = literal("kept\n", bytes)?;
    Some((false, rest))
}

/// A cluster of this phase, and the bytes after its line.
///
/// docs/FORMATS.md, "Instance text".
#[tactic(auto, unfolding(crate::specs::Lines::cluster_line_at, crate::specs::Lines::numbers_at))]
pub fn cluster_line(version: Version, phase: u8, bytes: &[u8]) -> Option<(Cluster, &[u8])>
    ensures exact { option_map seen result ≡ cluster_line_at version phase bytes.now }
    ensures shorter { IfSome result (λ x. length x.1.now < length bytes.now) }
{
    let rest = literal("cluster ", bytes)?;
    let (number, rest) = field_u8(b' ', rest)?;
    if number != phase {
        return None;
    }
    let (size, rest) = field_u32(b' ', rest)?;
    let (load, rest) = load(version, size, rest)?;
    let (arr, rest) = field_u32(b' ', rest)?;
    let (len, rest) = field_u32(b'\n', rest)?;
    let cluster = Cluster {
        size,
        load,
        arr,
        len,
    };
    Some((cluster, rest))
}

/// The load of a cluster of this size, which versions 3, 4 and 5 alone say, and the bytes after it.
fn load(version: Version, size: u32, bytes: &[u8]) -> Option<(u32, &[u8])>
    ensures exact { option_map seen result ≡ load_at version size bytes.now }
    ensures shorter { IfSome result (λ x. length x.1.now ≤ length bytes.now) }
{
    match version {
        Version::One | Version::Two => Some((size, bytes)),
        Version::Three | Version::Four | Version::Five => field_u32(b' ', bytes),
    }
}
