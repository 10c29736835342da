//! Reading the lines of phases and of clusters.

ghost use Rattle.std.specs.Prelude.{◌≡◌, ◌+◌, ◌^◌, ◌<◌, ◌≤◌, length, sum_by, IfOk};
ghost use Rattle.text_lines.specs.Many.{many_at};
ghost use Rattle.instance_form.specs.{Lines.cluster_line_at, Reading.Gives, Reading.phases_at, Reading.lists_at};

use crate::form::{FormFault, Version};
use crate::lines::{cluster_line, phase_line};
use foundation::items::Items;
use phase_plan::Phase;
use std::alloc::{AllocError, Global};
use switch_rules::Cluster;

/// `count` phases, the first of them in this line, and the bytes after them.
///
/// docs/FORMATS.md, "Instance text".
pub fn phases(
    alloc: Global,
    version: Version,
    count: u8,
    line: u32,
    bytes: &[u8],
) -> Result<(Vec<Phase>, &[u8]), FormFault>
    requires { line + count < 2 ^ 32 }
    ensures exact { Gives (λ x. (x.0.items, x.1.now)) result (phases_at version count line bytes.now) }
    ensures shorter { IfOk result (λ x. length x.1.now ≤ length bytes.now) }
{
    let mut phases = Vec::new(alloc);
    let mut rest = bytes;
    for index in 0..count {
        let (phase, after) = phase_line(version, rest).ok_or(FormFault::Line(
            line + u32::from(index),
        ))?;
        phases.push(phase)?;
        rest = after;
    }
    Ok((phases, rest))
}

/// The clusters of a phase, as many as follow one another, and the bytes after them.
///
/// docs/FORMATS.md, "Instance text".
pub fn clusters(
    alloc: Global,
    version: Version,
    phase: u8,
    bytes: &[u8],
) -> Result<(Vec<Cluster>, &[u8]), AllocError>
    ensures exact { IfOk result (λ x. many_at (cluster_line_at version phase) (length bytes.now) bytes.now
        ≡ (x.0.items, x.1.now)) }
    ensures few { IfOk result (λ x. length x.0.items + length x.1.now ≤ length bytes.now) }
{
    let mut list = Vec::new(alloc);
    let mut rest = bytes;
    while let Some((cluster, after)) = cluster_line(version, phase, rest) {
        list.push(cluster)?;
        rest = after;
    }
    Ok((list, rest))
}

/// The clusters of each of this many phases, how many they are in all, and the bytes after them.
///
/// docs/FORMATS.md, "Instance text".
pub fn lists(
    alloc: Global,
    version: Version,
    count: u8,
    bytes: &[u8],
) -> Result<(Vec<Items<Cluster>>, u32, &[u8]), AllocError>
    requires { length bytes.now < 2 ^ 32 }
    ensures exact { IfOk result (λ x. lists_at version count 0 bytes.now ≡ (x.0.items, x.2.now)) }
    ensures total { IfOk result (λ x. x.1 ≡ sum_by (λ list. length list) x.0.items) }
    ensures few { IfOk result (λ x. x.1 + length x.2.now ≤ length bytes.now) }
{
    let mut lists = Vec::new(alloc);
    let mut total = 0;
    let mut rest = bytes;
    for phase in 0..count {
        let (list, after) = clusters(alloc, version, phase, rest)?;
        total += list.len() as u32;
        lists.push(Items::from_vec(list))?;
        rest = after;
    }
    Ok((lists, total, rest))
}
