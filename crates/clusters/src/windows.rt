//! The window: the platoons that one planning takes up.
ghost use Rattle.std.specs.Prelude.{◌≡◌, ◌+◌, ◌<◌, ◌≤◌, ℕ, All, IfOk, length, replicate, take, slice_index, sum, map, vec_len};
ghost use Rattle.net_parts.specs.{Limits.most_look, Numbers.Net};
ghost use Rattle.clusters.specs.{Platoons.platoons_at, Sound.AreOfNode, Sound.ArePlannable, Sound.AreSpacedClusters, Sound.cluster_lists, Taking.AreFronts, Taking.IsEarlier, Taking.IsFirstOf, Taking.IsNextArrival, Windows.IsLongest};
ghost use Rattle.clusters.specs.{Windows.IsRising, Windows.IsWindow, Windows.counts_of};

use crate::vehicle_groups::{Platoon, Window};
use foundation::items::Items;
use std::alloc::{AllocError, Global};
use std::mem;
use switch_rules::{MOST_CLUSTERS, MOST_ORDERS, ways};

/// The window of these platoons: of all phases together, in the order in which they arrive, the longest front that can be
/// planned at once, phase by phase; and how many platoons wait. There are at most 4 lists, each of at most 180 platoons
/// that arrive one after another.
///
/// Where the clusters of the lists are spaced and within their bounds, those of the window make an instance with any head;
/// and where the lists are those of a node, so are the window's.
///
/// `Err`: out of memory.
///
/// docs/RULES.md, "Window".
pub fn window(alloc: Global, lists: Vec<Items<Platoon>>) -> Result<Window, AllocError>
    requires phases { vec_len lists ≤ 4 }
    requires rising { All IsRising lists.items }
    ensures window { IfOk result (IsWindow lists.items) }
    ensures clusters { All AreSpacedClusters (cluster_lists lists.items)
        → IfOk result (λ window. ArePlannable (cluster_lists window.lists)) }
    ensures node { (net : Net) (node now : ℕ) → AreOfNode net node now lists.items
        → IfOk result (λ window. AreOfNode net node now window.lists) }
{
    let mut counts = [0; 4];
    let counts = &mut counts[..lists.len()];
    longest_front(lists.as_slice(), counts);
    let waiting = count_waiting(lists.as_slice(), counts);
    let lists = fronts(alloc, lists, counts);
    Ok(Window {
        lists: Items::from_vec(lists),
        waiting,
    })
}

/// Counts how many platoons of each phase are in the window, from none on.
fn longest_front(lists: &[Items<Platoon>], counts: &mut [u32])
    requires phases { length lists.now ≤ 4 }
    requires rising { All IsRising lists.now }
    requires none { counts.old ≡ replicate (length lists.now) 0 }
    ensures { IsLongest lists.now counts.new }
{
    for _taken in 0..MOST_CLUSTERS {
        let Some(first) = first_waiting(lists, counts) else {
            return;
        };
        let phase = first.1;
        counts[phase] += 1;
        if ways(counts) > MOST_ORDERS {
            counts[phase] -= 1;
            return;
        }
    }
}

/// When the platoon arrives that comes first, of those after the ones taken, and its phase.
fn first_waiting(lists: &[Items<Platoon>], counts: &[u32]) -> Option<(u32, usize)>
    requires { length counts.now ≡ length lists.now }
    ensures { IsFirstOf lists.now counts.now (length lists.now) result }
{
    let mut first = None;
    for (phase, list) in lists.iter().enumerate() {
        if let Some(arr) = next_arrival(list.as_slice(), counts[phase]) {
            first = Some(earlier(first, arr, phase));
        }
    }
    first
}

/// When the platoon after the first `count` arrives, if there is one.
fn next_arrival(list: &[Platoon], count: u32) -> Option<u32>
    ensures { IsNextArrival list.now count result }
{
    list.get(count as usize).map(|platoon| platoon.cluster.arr)
}

/// The earlier of what was first so far and a platoon of a later phase.
fn earlier(first: Option<(u32, usize)>, arr: u32, phase: usize) -> (u32, usize)
    ensures { IsEarlier first arr phase result }
{
    match first {
        Some((earliest, earlier)) if earliest <= arr => (earliest, earlier),
        _ => (arr, phase),
    }
}

/// How many platoons are not taken.
fn count_waiting(lists: &[Items<Platoon>], counts: &[u32]) -> u32
    requires phases { length lists.now ≤ 4 }
    requires few { All (λ list. length list ≤ most_look) lists.now }
    requires same { length counts.now ≡ length lists.now }
    requires there { (k : ℕ) → slice_index counts.now k ≤ length (platoons_at lists.now k) }
    ensures { result + sum counts.now ≡ sum (counts_of lists.now) }
{
    let mut waiting = 0;
    for (phase, list) in lists.iter().enumerate() {
        waiting += list.len() as u32 - counts[phase];
    }
    waiting
}

/// Of each list the platoons that are taken.
fn fronts(alloc: Global, mut lists: Vec<Items<Platoon>>, counts: &[u32]) -> Vec<Items<Platoon>>
    requires { length counts.now ≡ vec_len lists }
    ensures { AreFronts lists.items counts.now result.items }
{
    for phase in 0..lists.len() {
        let list = mem::replace(&mut lists[phase], Items::from_vec(Vec::new(alloc)));
        lists[phase] = front(list, counts[phase]);
    }
    lists
}

/// The first `count` platoons of a list.
fn front(list: Items<Platoon>, count: u32) -> Items<Platoon>
    ensures { result ≡ take count list }
{
    let mut platoons = list.into_vec();
    platoons.truncate(count as usize);
    Items::from_vec(platoons)
}
