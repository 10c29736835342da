//! How the parts of a network are joined.
ghost use Rattle.std.specs.Prelude.{◌≡◌, ◌≢◌, ◌≤◌, ◌<◌, ◌^◌, ◌↔◌, IsTrue, IfOk, OnOk, IfSome, Some, [], All, AllPairs, length, replicate, sum_by};
ghost use Rattle.net_parts.specs.{Limits.most_links, Limits.most_nodes, Outline.IsOutline, Parts.net_of};
ghost use Rattle.road_net.specs.Stored.{TestsEach, clash_at, HasFewAt, IsPushedAt};
ghost use Rattle.road_net.specs.Joins.{HasEndsAt, link_at, node_at, AreByNode, HasShares, HasSharesAt, share_of, times_named, IsPhased, IsPhasedAt, IsConflict, IsConflictAt};

use crate::greens::are_never_both;
use crate::times::times_named;
use foundation::items::{Items, push_item};
use net_parts::{Link, NetFault, Parts, Turn, phase_with};
use std::alloc::{AllocError, Global};

/// A side of a link.
#[derive(Clone, Copy)]
pub(crate) enum Side {
    From,
    To,
}

/// Tests that each link comes from a node or ends at one, and not both at the same. The first that does not is named.
pub(crate) fn check_ends(links: &[Link]) -> Result<(), NetFault>
    requires { length links.now ≤ most_links }
    ensures { TestsEach NetFault.Ends (HasEndsAt links.now) (length links.now) result }
{
    for (index, link) in links.iter().enumerate() {
        if link.from == link.to {
            return Err(NetFault::Ends(index as u32));
        }
    }
    Ok(())
}

/// For each node the links that have it at this side, in number order.
pub(crate) fn links_by_node(
    alloc: Global,
    links: &[Link],
    nodes: u32,
    side: Side,
) -> Result<Vec<Items<u32>>, AllocError>
    requires { length links.now ≤ most_links }
    ensures { IfOk result (λ lists. AreByNode side links.now nodes lists.items) }
{
    let mut lists = empty_lists(alloc, nodes)?;
    for (index, link) in links.iter().enumerate() {
        push_at(alloc, &mut lists, node_at(link, side), index as u32)?;
    }
    Ok(lists)
}

/// A list for each of this number of nodes, all of them empty.
fn empty_lists(alloc: Global, nodes: u32) -> Result<Vec<Items<u32>>, AllocError>
    ensures { IfOk result (λ lists. lists.items ≡ replicate nodes []) }
{
    let mut lists = Vec::new(alloc);
    for node in 0..nodes {
        lists.push(Items::from_vec(Vec::new(alloc)))?;
    }
    Ok(lists)
}

/// The node at this side of a link.
fn node_at(link: &Link, side: Side) -> Option<u32>
    ensures { result ≡ node_at side link.now }
{
    match side {
        Side::From => link.from,
        Side::To => link.to,
    }
}

/// Appends a number to the list of the node, where there is one with a list.
fn push_at(
    alloc: Global,
    lists: &mut Vec<Items<u32>>,
    node: Option<u32>,
    number: u32,
) -> Result<(), AllocError>
    ensures { OnOk result (IsPushedAt node number lists.old.items lists.new.items) }
{
    let Some(node) = node else {
        return Ok(());
    };
    let place = node as usize;
    if place >= lists.len() {
        return Ok(());
    }
    push_item(alloc, lists, place, number)
}

/// Tests that no list has more than 16 links. The node of the first that has is named.
pub(crate) fn check_entries(entry_links: &[Items<u32>]) -> Result<(), NetFault>
    requires { length entry_links.now ≤ most_nodes }
    ensures { TestsEach NetFault.Crowd (HasFewAt entry_links.now) (length entry_links.now) result }
{
    for (index, links) in entry_links.iter().enumerate() {
        if links.len() > 16 {
            return Err(NetFault::Crowd(index as u32));
        }
    }
    Ok(())
}

/// Tests the turns of each link. The first whose turns are not as they must be is named.
pub(crate) fn check_shares(links: &[Link], turns: &[Items<Turn>]) -> Result<(), NetFault>
    requires few { length links.now ≤ most_links }
    requires same { length turns.now ≡ length links.now }
    requires exits { All (λ list. All (λ t. t.exit < length links.now) list) turns.now }
    requires sums { All (λ list. sum_by share_of list < 2 ^ 32) turns.now }
    ensures { TestsEach NetFault.Shares (HasSharesAt links.now turns.now) (length links.now) result }
{
    for (index, link) in links.iter().enumerate() {
        if !has_shares(links, turns[index].as_slice(), link.to) {
            return Err(NetFault::Shares(index as u32));
        }
    }
    Ok(())
}

/// Whether the turns of a link that ends there are as they must be.
fn has_shares(links: &[Link], turns: &[Turn], to: Option<u32>) -> bool
    requires exits { All (λ t. t.exit < length links.now) turns.now }
    requires sum { sum_by share_of turns.now < 2 ^ 32 }
    ensures { IsTrue result ↔ HasShares links.now turns.now to }
{
    match to {
        Some(node) => {
            turns_leave(links, turns, node)
                && exits_differ(turns)
                && turns.iter().map(|turn| turn.share).sum::<u32>() == 1000
        }
        None => turns.is_empty(),
    }
}

/// Whether all turns leave the node.
fn turns_leave(links: &[Link], turns: &[Turn], node: u32) -> bool
    requires { All (λ t. t.exit < length links.now) turns.now }
    ensures { IsTrue result ↔ All (λ t. (link_at links.now t.exit).from ≡ Some node) turns.now }
{
    for turn in turns {
        if links[turn.exit as usize].from != Some(node) {
            return false;
        }
    }
    true
}

/// Whether no two turns lead into one link.
fn exits_differ(turns: &[Turn]) -> bool
    ensures { IsTrue result ↔ AllPairs (λ s t. s.exit ≢ t.exit) turns.now }
{
    for (index, turn) in turns.iter().enumerate() {
        if !lacks_exit(&turns[index + 1..], turn.exit) {
            return false;
        }
    }
    true
}

/// Whether no turn leads into the link.
fn lacks_exit(turns: &[Turn], exit: u32) -> bool
    ensures { IsTrue result ↔ All (λ t. t.exit ≢ exit) turns.now }
{
    turns.iter().all(|turn| turn.exit != exit)
}

/// Tests that phases name each link that ends at a node once, in a phase of that node, and no other link. The first
/// that they do not name so is named.
pub(crate) fn check_phases(
    alloc: Global,
    links: &[Link],
    phase_links: &[Items<Items<u32>>],
) -> Result<(), NetFault>
    requires few { length links.now ≤ most_links }
    requires nodes { All (λ l. IfSome l.to (λ node. node < length phase_links.now)) links.now }
    requires phases { All (λ phases. length phases ≤ 4) phase_links.now }
    ensures { TestsEach NetFault.Phaseless (IsPhasedAt links.now phase_links.now) (length links.now) result }
{
    let times = times_named(alloc, phase_links, links.len())?;
    for (index, link) in links.iter().enumerate() {
        if !is_phased(times[index], phase_links, index as u32, link.to) {
            return Err(NetFault::Phaseless(index as u32));
        }
    }
    Ok(())
}

/// Whether phases that name the link so often name it as they must.
fn is_phased(times: usize, phase_links: &[Items<Items<u32>>], link: u32, to: Option<u32>) -> bool
    requires times { times ≡ times_named phase_links.now link }
    requires node { IfSome to (λ node. node < length phase_links.now) }
    requires phases { All (λ phases. length phases ≤ 4) phase_links.now }
    ensures { IsTrue result ↔ IsPhased phase_links.now link to }
{
    match to {
        Some(node) => times == 1
            && phase_with(phase_links[node as usize].as_slice(), link).is_some(),
        None => times == 0,
    }
}

/// Tests that the links of each conflict differ, end at one node and have no green in common. The first conflict whose links do
/// not is named.
pub(crate) fn check_conflicts(parts: &Parts) -> Result<(), NetFault>
    requires { IsOutline (net_of parts.now) }
    ensures { TestsEach (clash_at parts.now.conflicts.items) (IsConflictAt (net_of parts.now))
        (length parts.now.conflicts.items) result }
{
    let conflicts = parts.conflicts.as_slice();
    for (a, b) in conflicts {
        if !can_conflict(parts, *a, *b) {
            return Err(NetFault::Clash { a: *a, b: *b });
        }
    }
    Ok(())
}

/// Whether the two links may be a conflict.
fn can_conflict(parts: &Parts, a: u32, b: u32) -> bool
    requires outline { IsOutline (net_of parts.now) }
    requires first { a < length parts.now.link_names }
    requires second { b < length parts.now.link_names }
    ensures { IsTrue result ↔ IsConflict (net_of parts.now) (a, b) }
{
    let first = parts.links[a as usize].to;
    let second = parts.links[b as usize].to;
    a != b && first.is_some() && first == second && are_never_both(parts, a, b)
}
