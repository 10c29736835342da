//! What links discharge in a second, one after another.

ghost use Rattle.std.specs.Prelude.{◌≡◌, ℕ, ◌+◌, ◌≤◌, ◌<◌, ◌^◌, All, length, slice_index};
ghost use Rattle.net_parts.specs.Outline.{turns_at};
ghost use Rattle.road_net.specs.Joins.{split_of};
ghost use Rattle.spillback_world.specs.Filling.{room_of};
ghost use Rattle.spillback_world.specs.Steps.{AreHeld, HasDischarged, HaveDischarged, HaveLeft, HaveLinks, link_goes};
ghost use Rattle.spillback_world.specs.StoreRows.{IsStorage};

use crate::searches::allowed;
use crate::store::Store;
use road_net::{Network, part_of_turn};

/// Where links discharge: the network, how much its links can hold, and how much each may discharge in this second.
#[derive(Drop)]
pub(crate) struct Site<'a> {
    pub(crate) net: &'a Network,
    pub(crate) store: &'a Store,
    pub(crate) rates: &'a [u32],
}

/// Adds the parts of what link `l` discharges to what entered its exits, and to what is on them.
fn give(entering: &mut [u32], held: &mut [u32], net: &Network, l: u32, amount: u32)
    requires link { l < length net.now.link_names }
    requires entering { length entering.old ≡ length net.now.link_names }
    requires held { length held.old ≡ length net.now.link_names }
    requires fits { (k : ℕ) → k < length net.now.link_names
        → slice_index entering.old k + split_of (turns_at net.now l) amount k < 2 ^ 32 }
    requires holds { (k : ℕ) → k < length net.now.link_names
        → slice_index held.old k + split_of (turns_at net.now l) amount k < 2 ^ 32 }
    ensures entering { (k : ℕ) → slice_index entering.new k ≡
        slice_index entering.old k + split_of (turns_at net.now l) amount k }
    ensures held { (k : ℕ) → slice_index held.new k ≡
        slice_index held.old k + split_of (turns_at net.now l) amount k }
{
    if amount == 0 {
        return;
    }
    let mut before = 0;
    for turn in net.turns(l) {
        let part = part_of_turn(amount, before, turn.share);
        entering[turn.exit as usize] += part;
        held[turn.exit as usize] += part;
        before += turn.share;
    }
}

/// What link `l`, which ends at a node, discharges of its queue.
fn amount_of(queues: &[u32], held: &[u32], site: &Site, l: u32) -> u32
    requires link { l < length site.now.net.now.link_names }
    requires store { length site.now.store.now ≡ length site.now.net.now.link_names }
    requires queues { length queues.now ≡ length site.now.net.now.link_names }
    requires held { length held.now ≡ length site.now.net.now.link_names }
    requires rates { length site.now.rates.now ≡ length site.now.net.now.link_names }
    ensures value { result ≡ link_goes site.now.net.now site.now.store.now held.now queues.now site.now.rates.now l }
    ensures most { result ≤ slice_index queues.now l }
    ensures fits { (k : ℕ) → split_of (turns_at site.now.net.now l) result k ≤ room_of site.now.store.now held.now k }
    ensures bounds { All IsStorage site.now.store.now }
{
    law_of_storages(site.store, l);
    let wish = site.rates[l as usize].min(queues[l as usize]);
    allowed(site.net, site.store, held, l, wish)
}

/// Each link can hold 1 to 2,000,000,000.
pub(crate) fn law_of_storages(store: &Store, l: u32)
    requires { l < length store.now }
    ensures { All IsStorage store.now }
{
    // Called for its clause `bounds`.
    let _ = store.room(l);
}

/// Link `l` discharges what it may of its queue into its exits. A link that ends at no node does nothing here: what leaves
/// the network has left.
fn discharge_link(
    leaving: &mut [u32],
    queues: &mut [u32],
    entering: &mut [u32],
    held: &mut [u32],
    site: &Site,
    l: u32,
)
    requires link { l < length site.now.net.now.link_names }
    requires links { HaveLinks site.now.net.now site.now.store.now leaving.old queues.old entering.old held.old
        site.now.rates.now }
    requires held { AreHeld site.now.net.now site.now.store.now queues.old entering.old held.old }
    ensures { HasDischarged site.now.net.now site.now.store.now site.now.rates.now l
        leaving.old queues.old entering.old held.old leaving.new queues.new entering.new held.new }
{
    if site.net.link(l).to.is_none() {
        return;
    }
    let amount = amount_of(queues, held, site, l);
    let place = l as usize;
    leaving[place] = amount;
    queues[place] -= amount;
    held[place] -= amount;
    give(entering, held, site.net, l, amount);
}

/// The links discharge in their order, each what it may of its queue, once what leaves the network has left.
pub(crate) fn discharge(
    leaving: &mut [u32],
    queues: &mut [u32],
    entering: &mut [u32],
    held: &mut [u32],
    site: &Site,
)
    requires links { HaveLinks site.now.net.now site.now.store.now leaving.old queues.old entering.old held.old
        site.now.rates.now }
    requires held { AreHeld site.now.net.now site.now.store.now queues.old entering.old held.old }
    requires left { HaveLeft site.now.net.now queues.old leaving.old }
    ensures { HaveDischarged site.now.net.now site.now.store.now site.now.rates.now
        (length site.now.net.now.link_names) leaving.old queues.old entering.old held.old
        leaving.new queues.new entering.new held.new }
{
    for l in 0..site.net.links() {
        discharge_link(leaving, queues, entering, held, site, l);
    }
}
