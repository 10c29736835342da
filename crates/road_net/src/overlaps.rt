//! Further greens, links that give way, and walks.
ghost use Rattle.std.specs.Prelude.{◌≡◌, ◌≢◌, ◌≤◌, ◌<◌, ◌+◌, ◌==◌, ◌↔◌, ℕ, IsTrue, IfSome, MatchOption, Some, [], All, AllPairs, length, count_by, slice_index_or, sum_by};
ghost use Rattle.net_parts.specs.{Numbers.has_link, Outline.IsOutline, Outline.yields_at, Outline.also_links_at, Outline.plan_at, Parts.net_of};
ghost use Rattle.road_net.specs.{Joins.link_at, Joins.times_named, Joins.IsFurther, Joins.IsAlso, Joins.GivesWay, Joins.IsYield, Joins.HasLongGreens, Joins.IsWalk, Stored.TestsEach};

use crate::greens::{are_never_both, is_green};
use crate::times::times_named;
use foundation::items::Items;
use net_parts::{NetFault, Parts};
use std::alloc::Global;

/// Tests that phases name each link also as they may. The first that they do not name so is named.
pub(crate) fn check_also(alloc: Global, parts: &Parts) -> Result<(), NetFault>
    requires { IsOutline (net_of parts.now) }
    ensures { TestsEach NetFault.Also (IsAlso (net_of parts.now)) (length parts.now.links.items) result }
{
    let times = times_named(alloc, parts.also_links.as_slice(), parts.links.len())?;
    for l in 0..parts.link_names.len() {
        if !is_also(parts, times[l as usize], l) {
            return Err(NetFault::Also(l));
        }
    }
    Ok(())
}

/// Whether phases that name the link also so often do so as they may.
fn is_also(parts: &Parts, times: usize, l: u32) -> bool
    requires outline { IsOutline (net_of parts.now) }
    requires link { l < length parts.now.link_names }
    requires times { times ≡ times_named parts.now.also_links.items l }
    ensures { IsTrue result ↔ IsAlso (net_of parts.now) l }
{
    match parts.links[l as usize].to {
        Some(node) => is_also_there(parts, times, l, node),
        None => times == 0,
    }
}

/// Whether they do, where the link ends at this node: they are phases of the node, and each may.
fn is_also_there(parts: &Parts, times: usize, l: u32, node: u32) -> bool
    requires outline { IsOutline (net_of parts.now) }
    requires link { l < length parts.now.link_names }
    requires times { times ≡ times_named parts.now.also_links.items l }
    requires node { (link_at parts.now.links.items l).to ≡ Some node }
    ensures { IsTrue result ↔ IsAlso (net_of parts.now) l }
{
    let own = are_all(parts.also_links[node as usize].as_slice(), l, times);
    let each = is_also_at(parts, l, node);
    own && each
}

/// Whether these lists name the link so often together.
fn are_all(lists: &[Items<u32>], l: u32, count: usize) -> bool
    requires { sum_by (λ links. count_by (λ m. m == l) links) lists.now ≤ count }
    ensures { IsTrue result ↔ (sum_by (λ links. count_by (λ m. m == l) links) lists.now ≡ count) }
{
    let mut rest = count;
    for links in lists {
        rest -= times(links.as_slice(), l);
    }
    rest == 0
}

/// Whether the phases of a node name the link also as they may.
fn is_also_at(parts: &Parts, l: u32, n: u32) -> bool
    requires outline { IsOutline (net_of parts.now) }
    requires link { l < length parts.now.link_names }
    requires node { n < length parts.now.node_names }
    ensures { IsTrue result ↔ ((k : ℕ) → IsTrue (has_link l (also_links_at (net_of parts.now) n k))
        → IsFurther (net_of parts.now) l n k) }
{
    let here = parts.links[l as usize].to == Some(n);
    let serves = parts.phase_links[n as usize].as_slice();
    for (k, also) in parts.also_links[n as usize].as_slice().iter().enumerate() {
        if !is_further(serves[k].as_slice(), also.as_slice(), l, here) {
            return false;
        }
    }
    true
}

/// Whether a phase that serves these links, and names these also, may do so, where `here` says whether the link ends at its node.
fn is_further(serves: &[u32], also: &[u32], l: u32, here: bool) -> bool
    ensures { IsTrue result ↔ (IsTrue (has_link l also.now)
        → IsTrue here × (count_by (λ m. m == l) serves.now + count_by (λ m. m == l) also.now ≡ 1)) }
{
    !also.contains(&l) || (here && times(serves, l) + times(also, l) == 1)
}

/// How often the list has the link.
fn times(links: &[u32], l: u32) -> usize
    ensures { result ≡ count_by (λ m. m == l) links.now }
{
    links.iter().filter(|other| **other == l).count()
}

/// Tests that each link gives way as it may. The first that does not is named.
pub(crate) fn check_yields(parts: &Parts) -> Result<(), NetFault>
    requires { IsOutline (net_of parts.now) }
    ensures { TestsEach NetFault.Yields (IsYield (net_of parts.now)) (length parts.now.links.items) result }
{
    for l in 0..parts.link_names.len() {
        if !is_yield(parts, l) {
            return Err(NetFault::Yields(l));
        }
    }
    Ok(())
}

/// Whether the link gives way as it may.
fn is_yield(parts: &Parts, l: u32) -> bool
    requires outline { IsOutline (net_of parts.now) }
    requires link { l < length parts.now.link_names }
    ensures { IsTrue result ↔ IsYield (net_of parts.now) l }
{
    let others = parts.yields[l as usize].as_slice();
    can_yield_to(parts, l, others) && are_distinct(others)
}

/// Whether the link may give way to each of these.
fn can_yield_to(parts: &Parts, l: u32, others: &[u32]) -> bool
    requires outline { IsOutline (net_of parts.now) }
    requires link { l < length parts.now.link_names }
    requires others { All (λ other. other < length parts.now.link_names) others.now }
    ensures { IsTrue result ↔ All (GivesWay (net_of parts.now) l) others.now }
{
    for other in others {
        if !can_yield(parts, l, *other) {
            return false;
        }
    }
    true
}

/// Whether no two of the links are the same.
fn are_distinct(links: &[u32]) -> bool
    ensures { IsTrue result ↔ AllPairs (λ a b. a ≢ b) links.now }
{
    for (index, link) in links.iter().enumerate() {
        if !lacks(&links[index + 1..], *link) {
            return false;
        }
    }
    true
}

/// Whether the link is not one of these.
fn lacks(links: &[u32], link: u32) -> bool
    ensures { IsTrue result ↔ All (λ other. other ≢ link) links.now }
{
    links.iter().all(|other| *other != link)
}

/// Whether the link may give way to another one.
fn can_yield(parts: &Parts, l: u32, other: u32) -> bool
    requires outline { IsOutline (net_of parts.now) }
    requires link { l < length parts.now.link_names }
    requires other { other < length parts.now.link_names }
    ensures { IsTrue result ↔ GivesWay (net_of parts.now) l other }
{
    let node = parts.links[l as usize].to;
    other != l && parts.links[other as usize].to == node && !are_never_both(parts, l, other)
}

/// Tests that each link with a walk ends at a node and has greens that are long enough. The first that does not is named.
pub(crate) fn check_walks(parts: &Parts) -> Result<(), NetFault>
    requires { IsOutline (net_of parts.now) }
    ensures { TestsEach NetFault.Walk (IsWalk (net_of parts.now)) (length parts.now.links.items) result }
{
    for l in 0..parts.link_names.len() {
        if !is_walk(parts, l) {
            return Err(NetFault::Walk(l));
        }
    }
    Ok(())
}

/// Whether the link, where it has a walk, ends at a node and has greens that are long enough.
fn is_walk(parts: &Parts, l: u32) -> bool
    requires outline { IsOutline (net_of parts.now) }
    requires link { l < length parts.now.link_names }
    ensures { IsTrue result ↔ IsWalk (net_of parts.now) l }
{
    let link = parts.links[l as usize];
    match link.walk {
        Some(walk) => match link.to {
            Some(node) => has_long_greens(parts, l, walk.seconds + walk.cross, node),
            None => false,
        },
        None => true,
    }
}

/// Whether each green of the link at the node where it ends has at least these seconds.
fn has_long_greens(parts: &Parts, l: u32, seconds: u32, node: u32) -> bool
    requires outline { IsOutline (net_of parts.now) }
    requires link { l < length parts.now.link_names }
    requires node { (link_at parts.now.links.items l).to ≡ Some node }
    ensures { IsTrue result ↔ HasLongGreens (net_of parts.now) l seconds node }
{
    for (k, phase) in parts.plans[node as usize].phases().iter().enumerate() {
        if is_green(parts, l, k as u8) && phase.least < seconds {
            return false;
        }
    }
    true
}
