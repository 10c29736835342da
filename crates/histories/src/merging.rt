//! The history that logs tell.
ghost use Rattle.std.specs.Prelude.{◌≡◌, ◌<◌, ◌++◌, [], IfOk, IsPermutation, OnOk, length, map};
ghost use Rattle.histories.specs.Merges.{IsMerge, all_events, stamp_and_node};

use crate::history::History;
use board_model::BoardLog;
use std::alloc::{AllocError, Global};

/// The history of the logs of boards: the nodes of all their events, in the order of stamps, and of nodes where stamps are
/// equal. `Err`: out of memory.
///
/// docs/RULES.md, "Histories".
pub fn merge(alloc: Global, logs: &[BoardLog]) -> Result<History, AllocError>
    ensures { IfOk result (λ h. IsMerge logs.now h) }
{
    let mut drawn = Vec::new(alloc);
    for log in logs {
        push_drawn(log, &mut drawn)?;
    }
    place_by_stamps(&mut drawn);
    drawn.sort_unstable();
    nodes_of(alloc, drawn.as_slice())
}

/// Puts the pairs in the places of their stamps, as far as there are such places. Threads draw stamps one after another, so the sort
/// that follows finds them in order.
fn place_by_stamps(drawn: &mut Vec<(u64, u32)>)
    ensures { IsPermutation drawn.old.items drawn.new.items }
{
    for place in 0..drawn.len() {
        settle(drawn, place);
    }
}

/// Puts the pair in this place in that of its stamp, then the one that stood there, and so on, until one has no such place or finds
/// it taken by its like.
fn settle(drawn: &mut Vec<(u64, u32)>, place: usize)
    requires { place < length drawn.old.items }
    ensures same { IsPermutation drawn.old.items drawn.new.items }
    ensures count { length drawn.new.items ≡ length drawn.old.items }
{
    let count = drawn.len();
    for _ in 0..count {
        let stamp = drawn[place].0;
        if stamp >= count as u64 || drawn[stamp as usize].0 == stamp {
            return;
        }
        drawn.swap(place, stamp as usize);
    }
}

/// The history of the nodes of stamps with nodes.
fn nodes_of(alloc: Global, drawn: &[(u64, u32)]) -> Result<History, AllocError>
    ensures { IfOk result (λ h. h ≡ map (λ pair. pair.1) drawn.now) }
{
    let mut nodes = Vec::with_capacity(alloc, drawn.len())?;
    for pair in drawn {
        nodes.push(pair.1)?;
    }
    Ok(History::new(nodes))
}

/// Appends the stamp and the node of each event of a log to a list.
fn push_drawn(log: &BoardLog, drawn: &mut Vec<(u64, u32)>) -> Result<(), AllocError>
    ensures { OnOk result (drawn.new.items ≡ drawn.old.items ++ map stamp_and_node log.now.events) }
{
    for event in log.events() {
        drawn.push((event.stamp, event.node))?;
    }
    Ok(())
}
