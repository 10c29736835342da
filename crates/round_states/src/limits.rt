//! What a state can't have, though it is told as it must be.
ghost use Rattle.std.specs.Prelude.{◌≡◌, ◌↔◌, ℕ, ◌+◌, ◌<◌, ◌≤◌, IfErr, IsTrue, OnOk, length};
ghost use Rattle.control_flow.specs.Greens.{BeginBy};
ghost use Rattle.net_parts.specs.Limits.{most_seconds};
ghost use Rattle.round_states.specs.Faults.{AllBeginSoon, AllStoodInTime, BeginSoon, IsLimitFault, StoodInTime};
ghost use Rattle.round_states.specs.Order.{now_of};
ghost use Rattle.round_states.specs.States.{farthest_begin};
ghost use Rattle.round_states.specs.Readers.{IsByPlace};
ghost use Rattle.round_states.specs.Texts.{CanHaveStood, IsUntold, all_said, green_said, queue_said, version_said};

use crate::asked::Asked;
use crate::by_place::{ByPlace, list_of};
use crate::entries::{Entry, Queue};
use crate::faults::StateFault;
use crate::order::{now_of, round_of};
use crate::senses::NO_QUEUE;
use control_flow::greens::Green;
use road_net::Network;

/// For how many seconds after the begin of a round rows of timelines may begin.
const FARTHEST_BEGIN: u32 = 3_780;

/// Tests that what is told can be a state for these nodes. The fault is `Stood`, `Late` or `Told`, the first of them, at the least
/// link or node.
pub(crate) fn check_limits(
    net: &Network,
    asked: Asked,
    entries: &[Entry],
    content: &ByPlace,
) -> Result<(), StateFault>
    requires content { IsByPlace net.now entries.now content.now }
    requires now { now_of entries.now ≤ most_seconds }
    ensures stood { OnOk result (AllStoodInTime net.now entries.now) }
    ensures soon { OnOk result (AllBeginSoon net.now entries.now) }
    ensures untold { OnOk result ((l : ℕ) → l < length net.now.link_names → IsUntold net.now asked entries.now l) }
    ensures first { IfErr result (IsLimitFault net.now asked entries.now) }
{
    check_stood(net, asked, entries, content)?;
    check_soon(net, asked, entries, content)?;
    check_untold(net, asked, entries, content)
}

/// Tests that each queue has stood for no longer than it can have.
fn check_stood(
    net: &Network,
    asked: Asked,
    entries: &[Entry],
    content: &ByPlace,
) -> Result<(), StateFault>
    requires { IsByPlace net.now entries.now content.now }
    ensures ok { OnOk result (AllStoodInTime net.now entries.now) }
    ensures first { IfErr result (IsLimitFault net.now asked entries.now) }
{
    for link in 0..net.links() {
        let queues = list_of(content.queues.as_slice(), link);
        let can = stood_in_time(entries, link, queues);
        if !can {
            return Err(StateFault::Stood(link));
        }
    }
    Ok(())
}

/// Whether the queue of a link has stood for no longer than it can have, where these are its queues.
fn stood_in_time(entries: &[Entry], link: u32, queues: &[Queue]) -> bool
    requires { queues.now ≡ all_said queue_said entries.now link }
    ensures { IsTrue result ↔ StoodInTime entries.now link }
{
    let queue = queues.first().copied().unwrap_or(NO_QUEUE);
    can_have_stood(now_of(entries), queue)
}

/// Whether a queue can have stood as long by a second.
fn can_have_stood(now: u32, queue: Queue) -> bool
    ensures { IsTrue result ↔ CanHaveStood now queue }
{
    (queue.stood == 0 || queue.amount > 0) && queue.stood <= now
}

/// Tests that no green of a node begins too late, where each queue has stood for no longer than it can have.
fn check_soon(
    net: &Network,
    asked: Asked,
    entries: &[Entry],
    content: &ByPlace,
) -> Result<(), StateFault>
    requires content { IsByPlace net.now entries.now content.now }
    requires now { now_of entries.now ≤ most_seconds }
    requires stood { AllStoodInTime net.now entries.now }
    ensures ok { OnOk result (AllBeginSoon net.now entries.now) }
    ensures first { IfErr result (IsLimitFault net.now asked entries.now) }
{
    for node in 0..net.nodes() {
        let greens = list_of(content.greens.as_slice(), node);
        let soon = begin_soon(entries, node, greens);
        if !soon {
            return Err(StateFault::Late(node));
        }
    }
    Ok(())
}

/// Whether no green of a node begins too late, where these are its greens.
fn begin_soon(entries: &[Entry], node: u32, greens: &[Green]) -> bool
    requires now { now_of entries.now ≤ most_seconds }
    requires greens { greens.now ≡ all_said green_said entries.now node }
    ensures { IsTrue result ↔ BeginSoon entries.now node }
{
    begin_by(now_of(entries) + FARTHEST_BEGIN, greens)
}

/// Whether each row begins by a second.
fn begin_by(second: u32, rows: &[Green]) -> bool
    ensures { IsTrue result ↔ BeginBy second rows.now }
{
    rows.iter().all(|row| row.from <= second)
}

/// Tests that none has told on a link in this round, where all nodes are asked, each queue has stood for no longer than it can
/// have, and no green begins too late.
fn check_untold(
    net: &Network,
    asked: Asked,
    entries: &[Entry],
    content: &ByPlace,
) -> Result<(), StateFault>
    requires content { IsByPlace net.now entries.now content.now }
    requires stood { AllStoodInTime net.now entries.now }
    requires soon { AllBeginSoon net.now entries.now }
    ensures ok { OnOk result ((l : ℕ) → l < length net.now.link_names → IsUntold net.now asked entries.now l) }
    ensures first { IfErr result (IsLimitFault net.now asked entries.now) }
{
    for link in 0..net.links() {
        let versions = list_of(content.versions.as_slice(), link);
        let untold = is_untold(net, asked, entries, link, versions);
        if !untold {
            return Err(StateFault::Told(link));
        }
    }
    Ok(())
}

/// Whether none has told on a link in this round, or not all nodes are asked, where these are the versions of the link.
fn is_untold(net: &Network, asked: Asked, entries: &[Entry], link: u32, versions: &[u32]) -> bool
    requires { versions.now ≡ all_said version_said entries.now link }
    ensures { IsTrue result ↔ IsUntold net.now asked entries.now link }
{
    match asked {
        Asked::AllNodes => versions.first().copied().unwrap_or(0) <= round_of(net, entries),
        Asked::OneNode(_) => true,
    }
}
