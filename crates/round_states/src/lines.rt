//! The timelines of a state.
ghost use Rattle.std.specs.Prelude.{◌≡◌, ◌↔◌, IfErr, IfOk, IsTrue, MatchOption, OnOk, ℕ, ◌<◌, length, map};
ghost use Rattle.std.specs.List.{range_with_len};
ghost use Rattle.control_flow.specs.Greens.{BeginBy, end_of};
ghost use Rattle.net_parts.specs.Outline.{plan_at};
ghost use Rattle.road_net.specs.Network.{IsNetwork};
ghost use Rattle.round_states.specs.Faults.{AreBoardsOnce, AreSensedOnce, IsEntryFault};
ghost use Rattle.round_states.specs.Order.{now_of};
ghost use Rattle.round_states.specs.States.{IsAsked, IsLineAt, last_begin};
ghost use Rattle.round_states.specs.Readers.{IsByPlace};
ghost use Rattle.round_states.specs.Texts.{GoesOn, all_said, green_said};

use crate::asked::Asked;
use crate::by_place::{ByPlace, list_of};
use crate::entries::Entry;
use crate::faults::StateFault;
use crate::order::now_of;
use control_flow::greens::{Green, Timeline};
use control_flow::is_lawful;
use phase_plan::PhasePlan;
use road_net::Network;
use std::alloc::{AllocError, Global};

/// The last second in which a row of a timeline may begin.
const LAST_BEGIN: u32 = 100_000;

/// The timeline of each node, where what is sensed of each link and its board are told once; with no row where none is told
/// and the node is not asked. The fault is `Line` of the least node whose greens are none.
pub(crate) fn lines(
    alloc: Global,
    net: &Network,
    asked: Asked,
    entries: &[Entry],
    content: &ByPlace,
) -> Result<Vec<Timeline>, StateFault>
    requires content { IsByPlace net.now entries.now content.now }
    requires senses { AreSensedOnce net.now entries.now }
    requires boards { AreBoardsOnce net.now entries.now }
    ensures ok { IfOk result (λ lines. lines.items
        ≡ map (all_said green_said entries.now) (range_with_len 0 (length net.now.node_names))) }
    ensures each { OnOk result ((n : ℕ) → n < length net.now.node_names → GoesOn net.now asked entries.now n) }
    ensures first { IfErr result (IsEntryFault net.now asked entries.now) }
{
    let mut lines = Vec::new(alloc);
    for node in 0..net.nodes() {
        let greens = list_of(content.greens.as_slice(), node);
        let Some(line) = line(alloc, net, asked, entries, node, greens)? else {
            return Err(StateFault::Line(node));
        };
        lines.push(line)?;
    }
    Ok(lines)
}

/// The timeline of a node, where its greens, which are told, are one that goes on as the round begins, or none is asked for.
/// `Err`: out of memory.
fn line(
    alloc: Global,
    net: &Network,
    asked: Asked,
    entries: &[Entry],
    node: u32,
    greens: &[Green],
) -> Result<Option<Timeline>, AllocError>
    requires node { node < length net.now.node_names }
    requires greens { greens.now ≡ all_said green_said entries.now node }
    ensures { IfOk result (λ line. MatchOption line (¬ GoesOn net.now asked entries.now node)
        (λ line. (line ≡ all_said green_said entries.now node) × GoesOn net.now asked entries.now node)) }
{
    let is_wanted = is_asked(asked, node) || !greens.is_empty();
    if is_wanted && !goes_on(net.plan(node), now_of(entries), greens) {
        return Ok(None);
    }
    let mut rows = Vec::with_capacity(alloc, greens.len())?;
    rows.extend_from_slice(greens)?;
    Ok(Some(Timeline::from_rows(rows)))
}

/// Whether a node is to have its turn.
fn is_asked(asked: Asked, node: u32) -> bool
    ensures { IsTrue result ↔ IsAsked asked node }
{
    match asked {
        Asked::AllNodes => true,
        Asked::OneNode(one) => one == Some(node),
    }
}

/// Whether rows are a timeline that goes on in this second.
fn goes_on(plan: &PhasePlan, now: u32, rows: &[Green]) -> bool
    ensures { IsTrue result ↔ IsLineAt plan.now now rows.now }
{
    let Some(first) = rows.first() else {
        return false;
    };
    first.from <= now && now < end_of(rows) && begin_in_time(rows) && is_lawful(plan, rows)
}

/// The second after the last row.
fn end_of(rows: &[Green]) -> u32
    ensures { result ≡ end_of rows.now }
{
    match rows.last() {
        Some(row) => row.to,
        None => 0,
    }
}

/// Whether no row begins later than it may.
fn begin_in_time(rows: &[Green]) -> bool
    ensures { IsTrue result ↔ BeginBy last_begin rows.now }
{
    rows.iter().all(|row| row.from <= LAST_BEGIN)
}
