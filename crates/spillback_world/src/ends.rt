//! What happens at the ends of links, and before their begins, in a second.

ghost use Rattle.std.specs.Prelude.{◌≡◌, ◌≢◌, ℕ, ◌+◌, ◌-◌, ◌*◌, ◌%◌, ◌≤◌, ◌<◌, ◌^◌, All, length, slice_index};
ghost use Rattle.net_parts.specs.Limits.{most_seconds};
ghost use Rattle.net_parts.specs.Outline.{link_at};
ghost use Rattle.arrivals.specs.Amounts.{arriving_of};
ghost use Rattle.net_simulator.specs.LinkSeconds.{waits_at};
ghost use Rattle.net_simulator.specs.Rows.{cell, kept_seconds};
ghost use Rattle.net_simulator.specs.Sums.{outward};
ghost use Rattle.road_net.specs.Totals.{total};
ghost use Rattle.spillback_world.specs.Steps.{comes_of};
ghost use Rattle.spillback_world.specs.StoreRows.{IsStorage};

use crate::searches::room;
use crate::store::Store;
use arrivals::{Arrivals, next_amount};
use net_simulator::link_seconds::{outward, waiting_amount};
use net_simulator::rows;
use road_net::Network;

/// What entered each link one travel time ago reaches its end: it joins the queue, and on a link that ends at no node all
/// leaves the network. Tells how much leaves.
pub(crate) fn reach_ends(
    leaving: &mut [u32],
    queues: &mut [u32],
    held: &mut [u32],
    net: &Network,
    recent: &[u32],
    second: u32,
) -> u64
    requires leaving { length leaving.old ≡ length net.now.link_names }
    requires queues { length queues.old ≡ length net.now.link_names }
    requires held { length held.old ≡ length net.now.link_names }
    requires recent { length recent.now ≡ length net.now.link_names * kept_seconds }
    requires second { second < most_seconds }
    requires there { (l : ℕ) → l < length net.now.link_names
        → waits_at net.now queues.old recent.now second l ≤ slice_index held.old l }
    ensures leaving { (l : ℕ) → l < length net.now.link_names → slice_index leaving.new l ≡
        outward (link_at net.now l).to (waits_at net.now queues.old recent.now second l) }
    ensures queues { (l : ℕ) → l < length net.now.link_names → slice_index queues.new l ≡
        waits_at net.now queues.old recent.now second l - slice_index leaving.new l }
    ensures held { (l : ℕ) → l < length net.now.link_names → slice_index held.new l ≡
        slice_index held.old l - slice_index leaving.new l }
    ensures out { result ≡ total (λ l. outward (link_at net.now l).to (waits_at net.now queues.old recent.now second l))
        (length net.now.link_names) }
{
    let mut out = 0;
    for l in 0..net.links() {
        let waiting = waiting_amount(net, queues, recent, second, l);
        let away = outward(net.link(l).to, waiting);
        leaving[l as usize] = away;
        queues[l as usize] = waiting - away;
        held[l as usize] -= away;
        out += u64::from(away);
    }
    out
}

/// Where vehicles are let in: how much the links can hold, what arrives, and the second.
#[derive(Drop)]
pub(crate) struct Gate<'a> {
    pub(crate) store: &'a Store,
    pub(crate) arrivals: &'a Arrivals,
    pub(crate) second: u32,
}

/// What arrives joins what waits outside of its link, and as much of that enters as there is room for. What entered each
/// link in this second is then written into its row. Tells how much enters.
pub(crate) fn let_in(
    outside: &mut [u32],
    held: &mut [u32],
    recent: &mut [u32],
    entering: &[u32],
    gate: &Gate,
    links: u32,
) -> u64
    requires store { length gate.now.store.now ≡ links }
    requires outside { length outside.old ≡ links }
    requires held { length held.old ≡ links }
    requires entering { length entering.now ≡ links }
    requires recent { length recent.old ≡ links * kept_seconds }
    requires fits { (l : ℕ) → l < links
        → slice_index outside.old l + arriving_of gate.now.arrivals.now gate.now.second l < 2 ^ 32 }
    requires there { (l : ℕ) → l < links → slice_index entering.now l ≤ slice_index held.old l }
    requires within { (l : ℕ) → l < links → slice_index held.old l ≤ slice_index gate.now.store.now l }
    requires bounds { All IsStorage gate.now.store.now }
    ensures outside { (l : ℕ) → l < links → slice_index outside.new l ≡
        slice_index outside.old l + arriving_of gate.now.arrivals.now gate.now.second l
        - comes_of gate.now.store.now held.old outside.old (arriving_of gate.now.arrivals.now gate.now.second) l }
    ensures held { (l : ℕ) → l < links → slice_index held.new l ≡ slice_index held.old l
        + comes_of gate.now.store.now held.old outside.old (arriving_of gate.now.arrivals.now gate.now.second) l }
    ensures here { (l : ℕ) → l < links → cell recent.new l gate.now.second ≡ slice_index entering.now l
        + comes_of gate.now.store.now held.old outside.old (arriving_of gate.now.arrivals.now gate.now.second) l }
    ensures others { (l y : ℕ) → y % kept_seconds ≢ gate.now.second % kept_seconds
        → cell recent.new l y ≡ cell recent.old l y }
    ensures all { result ≡ total (comes_of gate.now.store.now held.old outside.old
        (arriving_of gate.now.arrivals.now gate.now.second)) links }
{
    let mut coming = gate.arrivals.in_second(gate.second);
    let mut all = 0;
    for l in 0..links {
        let place = l as usize;
        let (arriving, later) = next_amount(coming, l);
        coming = later;
        let waits = outside[place] + arriving;
        let amount = waits.min(room(gate.store, held, l));
        outside[place] = waits - amount;
        held[place] += amount;
        rows::put(recent, l, gate.second, entering[place] + amount);
        all += u64::from(amount);
    }
    all
}
