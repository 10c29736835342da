//! What comes to the end of an exit link, second by second.
ghost use Rattle.std.specs.Prelude.{◌≡◌, ◌+◌, ◌-◌, ◌<◌, ◌≤◌, ℕ, All, length, replicate, slice_get, slice_index, option_copied, sum_by};
ghost use Rattle.net_parts.specs.Limits.{most_sat, most_seconds};
ghost use Rattle.road_net.specs.Joins.{part_between, share_of};
ghost use Rattle.clusters.specs.{Sound.AreOfNode, Windows.counts_of};
ghost use Rattle.outflow.specs.{Outflow.AreServed, Outflow.departures, Outflow.part_coming, Steps.AreArriving, Steps.IsShareInto};

use crate::servings::Servings;
use clusters::{Parts, Platoon, Window};
use road_net::{Network, Turn};

/// Fills in what comes to the end of an exit link in each second from `now` on, as long as the network looks ahead; nothing
/// is filled in yet.
pub(crate) fn fill_exit_flow(
    amounts: &mut [u32],
    net: &Network,
    node: u32,
    window: &Window,
    servings: &Servings,
    exit: u32,
    now: u32,
)
    requires amounts { amounts.old ≡ replicate net.now.run.look 0 }
    requires node { node < length net.now.node_names }
    requires now { now ≤ most_seconds }
    requires exit { exit < length net.now.link_names }
    requires platoons { AreOfNode net.now node now window.now.lists }
    requires served { AreServed window.now.lists servings.now.phases.now servings.now.served.now }
    ensures { AreArriving net.now exit now (departures window.now.lists (counts_of window.now.lists)
        servings.now.phases.now servings.now.served.now) amounts.new }
{
    let travel = net.link(exit).travel;
    let mut taken = [0usize; 4];
    for (i, phase) in servings.phases.iter().enumerate() {
        let k = *phase as usize;
        let Some(platoon) = platoon_at(window.lists.as_slice()[k].as_slice(), taken[k]) else {
            return;
        };
        taken[k] += 1;
        let first = servings.served[i].start as usize + travel as usize - now as usize;
        add_platoon(amounts, net, &platoon.parts, first, exit);
    }
}

/// The platoon with this place, if there is one.
fn platoon_at(list: &[Platoon], place: usize) -> Option<&Platoon>
    ensures { option_copied result ≡ slice_get list.entry.now place }
{
    list.get(place)
}

/// Adds what of each part comes, the first of it in this place.
fn add_platoon(amounts: &mut [u32], net: &Network, parts: &Parts, first: usize, exit: u32)
    requires links { All (λ part. part.link < length net.now.link_names) parts.now }
    requires few { length parts.now ≤ 16 }
    requires small { All (λ part. All (λ amount. amount ≤ most_sat) part.amounts) parts.now }
    requires none { (k : ℕ) → first ≤ k → slice_index amounts.old k ≡ 0 }
    ensures near { (k : ℕ) → k < first → slice_index amounts.new k ≡ slice_index amounts.old k }
    ensures far { (k : ℕ) → first ≤ k → k < length amounts.old
        → slice_index amounts.new k ≡ sum_by (part_coming net.now exit 0 k first) parts.now }
{
    for place in 0..parts.len() {
        let (link, part) = parts.at(place);
        let share = share_into(net.turns(link), exit);
        add_part(amounts, part, first, share);
    }
}

/// Adds the part of each amount that has this share, the first of them in this place, as far as there are places.
fn add_part(amounts: &mut [u32], part: &[u32], first: usize, share: (u32, u32))
    requires share { share.0 + share.1 ≤ 1000 }
    requires small { All (λ amount. amount ≤ most_sat) part.now }
    requires fits { (k : ℕ) → first ≤ k → slice_index amounts.old k ≤ 80000 }
    ensures near { (k : ℕ) → k < first → slice_index amounts.new k ≡ slice_index amounts.old k }
    ensures far { (k : ℕ) → first ≤ k → k < length amounts.old → slice_index amounts.new k ≡
        slice_index amounts.old k + part_between (slice_index part.now (k - first)) share.0 (share.0 + share.1) }
{
    if first >= amounts.len() || share.1 == 0 {
        return;
    }
    for j in 0..part.len().min(amounts.len() - first) {
        amounts[first + j] += part_of_amount(part[j], share.0, share.1);
    }
}

/// The part of what leaves in one second that makes a turn: `part_of_turn` of so small an amount, in 32 bits.
fn part_of_amount(amount: u32, before: u32, share: u32) -> u32
    requires share { before + share ≤ 1000 }
    requires small { amount ≤ most_sat }
    ensures value { result ≡ part_between amount before (before + share) }
    ensures bounds { result ≤ amount }
{
    amount * (before + share) / 1000 - amount * before / 1000
}

/// The share of the turns before the one into the exit, and its own share; nothing where no turn leads there.
fn share_into(turns: &[Turn], exit: u32) -> (u32, u32)
    requires { sum_by share_of turns.now ≤ 1000 }
    ensures { IsShareInto turns.now exit result }
{
    let mut before = 0;
    for turn in turns {
        if turn.exit == exit {
            return (before, turn.share);
        }
        before += turn.share;
    }
    (0, 0)
}
