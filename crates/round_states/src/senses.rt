//! What the nodes of a state sense.
ghost use Rattle.std.specs.Prelude.{◌≡◌, ◌↔◌, ℕ, ◌+◌, ◌<◌, ◌≤◌, All, IfErr, IfOk, IsTrue, MatchOption, OnOk, length, map, sum, sum_by};
ghost use Rattle.std.specs.List.{range_with_len};
ghost use Rattle.net_parts.specs.Limits.{most_of_all, most_seconds, most_travel};
ghost use Rattle.board_model.specs.Forecasts.{amount_at};
ghost use Rattle.net_parts.specs.Outline.{link_at};
ghost use Rattle.road_net.specs.Network.{entry_links};
ghost use Rattle.road_net.specs.Senses.{amount};
ghost use Rattle.round_states.specs.Faults.{AllGoOn, AreBoardsOnce, AreSensedOnce, IsEntryFault, SensesFew};
ghost use Rattle.round_states.specs.Order.{now_of};
ghost use Rattle.round_states.specs.Readers.{IsByPlace};
ghost use Rattle.round_states.specs.Texts.{IsSensedOnce, all_said, coming_in, coming_said, queue_said, sense_in, sensed_in};

use crate::asked::Asked;
use crate::boards::are_rising;
use crate::by_place::{ByPlace, list_of};
use crate::entries::{Entry, Queue};
use crate::faults::StateFault;
use crate::order::now_of;
use board_model::Row;
use foundation::items::Items;
use road_net::{LinkSense, Network, Sensed};
use std::alloc::{AllocError, Global};

/// The most that a node may sense, in thousandths of a vehicle.
const MOST: u32 = net_parts::MOST_OF_ALL;

/// Tests that what is sensed of each link is told once. The fault is `Sense` of the least link of which it is not.
pub(crate) fn check_senses(
    net: &Network,
    asked: Asked,
    entries: &[Entry],
    content: &ByPlace,
) -> Result<(), StateFault>
    requires { IsByPlace net.now entries.now content.now }
    ensures ok { OnOk result ((l : ℕ) → l < length net.now.link_names → IsSensedOnce entries.now l) }
    ensures first { IfErr result (IsEntryFault net.now asked entries.now) }
{
    for link in 0..net.links() {
        let queues = list_of(content.queues.as_slice(), link);
        let rows = list_of(content.coming.as_slice(), link);
        let once = is_sensed_once(entries, link, queues, rows);
        if !once {
            return Err(StateFault::Sense(link));
        }
    }
    Ok(())
}

/// Whether what is sensed of a link is told once, where these are its queues and what comes on it.
fn is_sensed_once(entries: &[Entry], link: u32, queues: &[Queue], rows: &[Row]) -> bool
    requires queues { queues.now ≡ all_said queue_said entries.now link }
    requires rows { rows.now ≡ all_said coming_said entries.now link }
    ensures { IsTrue result ↔ IsSensedOnce entries.now link }
{
    queues.len() <= 1 && are_rising(rows)
}

/// What each node senses, where what is sensed of each link and its board are told once, and the greens of each node go on. The fault is
/// `Sum` of the least node that senses more than it may.
pub(crate) fn senses(
    alloc: Global,
    net: &Network,
    asked: Asked,
    entries: &[Entry],
    content: &ByPlace,
) -> Result<Vec<Sensed>, StateFault>
    requires content { IsByPlace net.now entries.now content.now }
    requires now { now_of entries.now ≤ most_seconds }
    requires senses { AreSensedOnce net.now entries.now }
    requires boards { AreBoardsOnce net.now entries.now }
    requires lines { AllGoOn net.now asked entries.now }
    ensures ok { IfOk result (λ all. all.items
        ≡ map (sensed_in net.now entries.now) (range_with_len 0 (length net.now.node_names))) }
    ensures few { OnOk result ((n : ℕ) → n < length net.now.node_names → SensesFew net.now entries.now n) }
    ensures first { IfErr result (IsEntryFault net.now asked entries.now) }
{
    let mut all = Vec::new(alloc);
    for node in 0..net.nodes() {
        let Some(sensed) = node_sense(alloc, net, entries, content, node)? else {
            return Err(StateFault::Sum(node));
        };
        all.push(sensed)?;
    }
    Ok(all)
}

/// What a node senses; none where it is more than it may be. `Err`: out of memory.
fn node_sense(
    alloc: Global,
    net: &Network,
    entries: &[Entry],
    content: &ByPlace,
    node: u32,
) -> Result<Option<Sensed>, AllocError>
    requires content { IsByPlace net.now entries.now content.now }
    requires now { now_of entries.now ≤ most_seconds }
    requires node { node < length net.now.node_names }
    ensures { IfOk result (λ sensed. MatchOption sensed (¬ SensesFew net.now entries.now node)
        (λ sensed. (sensed ≡ sensed_in net.now entries.now node) × SensesFew net.now entries.now node)) }
{
    let links = link_senses(alloc, net, entries, content, node)?;
    if are_few(links.as_slice()) {
        Ok(Some(Sensed {
            now: now_of(entries),
            links: Items::from_vec(links),
        }))
    } else {
        Ok(None)
    }
}

/// What is sensed of each entry link of a node. `Err`: out of memory.
fn link_senses(
    alloc: Global,
    net: &Network,
    entries: &[Entry],
    content: &ByPlace,
    node: u32,
) -> Result<Vec<LinkSense>, AllocError>
    requires content { IsByPlace net.now entries.now content.now }
    requires now { now_of entries.now ≤ most_seconds }
    requires node { node < length net.now.node_names }
    ensures { IfOk result (λ links. links.items
        ≡ map (sense_in net.now entries.now) (entry_links net.now node)) }
{
    let mut links = Vec::new(alloc);
    for link in net.entry_links(node) {
        let queues = list_of(content.queues.as_slice(), *link);
        let rows = list_of(content.coming.as_slice(), *link);
        links.push(sense(alloc, net, entries, *link, queues, rows)?)?;
    }
    Ok(links)
}

/// What is sensed of a link, where these are its queues and what comes on it. `Err`: out of memory.
fn sense(
    alloc: Global,
    net: &Network,
    entries: &[Entry],
    link: u32,
    queues: &[Queue],
    rows: &[Row],
) -> Result<LinkSense, AllocError>
    requires now { now_of entries.now ≤ most_seconds }
    requires link { link < length net.now.link_names }
    requires queues { queues.now ≡ all_said queue_said entries.now link }
    requires rows { rows.now ≡ all_said coming_said entries.now link }
    ensures { IfOk result (λ sense. sense ≡ sense_in net.now entries.now link) }
{
    let queue = queues.first().copied().unwrap_or(NO_QUEUE);
    let coming = coming(alloc, rows, now_of(entries), net.link(link).travel)?;
    Ok(LinkSense {
        link,
        queue: queue.amount,
        coming: Items::from_vec(coming),
        stood: queue.stood,
    })
}

/// What stands where no queue is told.
pub(crate) const NO_QUEUE: Queue = Queue {
    amount: 0,
    stood: 0,
};

/// What comes in each of this number of seconds, from this one on. `Err`: out of memory.
fn coming(alloc: Global, rows: &[Row], now: u32, travel: u32) -> Result<Vec<u32>, AllocError>
    requires now { now ≤ most_seconds }
    requires travel { travel ≤ most_travel }
    ensures { IfOk result (λ all. all.items ≡ map (amount_at rows.now) (range_with_len now travel)) }
{
    let mut all = Vec::new(alloc);
    for second in now..now + travel {
        all.push(amount_in(rows, second))?;
    }
    Ok(all)
}

/// What comes in a second: the amount of the first row with it, and else 0.
fn amount_in(rows: &[Row], second: u32) -> u32
    ensures { result ≡ amount_at rows.now second }
{
    match rows.iter().find(|row| row.second == second) {
        Some(row) => row.amount,
        None => 0,
    }
}

/// Whether what is sensed of all these links is no more than it may be.
fn are_few(links: &[LinkSense]) -> bool
    ensures { IsTrue result ↔ sum_by amount links.now ≤ most_of_all }
{
    let mut left = MOST;
    for sense in links {
        match rest_after(sense, left) {
            Some(rest) => left = rest,
            None => return false,
        }
    }
    true
}

/// What is left of an amount after what is sensed of a link; none where that is more.
fn rest_after(sense: &LinkSense, left: u32) -> Option<u32>
    ensures { MatchOption result (left < amount sense.now) (λ rest. rest + amount sense.now ≡ left) }
{
    if sense.queue > left {
        return None;
    }
    rest_after_all(sense.coming.as_slice(), left - sense.queue)
}

/// What is left of an amount after all these; none where they are more.
fn rest_after_all(amounts: &[u32], left: u32) -> Option<u32>
    ensures { MatchOption result (left < sum amounts.now) (λ rest. rest + sum amounts.now ≡ left) }
{
    let mut rest = left;
    for amount in amounts {
        if *amount > rest {
            return None;
        }
        rest -= *amount;
    }
    Some(rest)
}
