//! The search of the greatest amount for which there is room.

ghost use Rattle.std.specs.Prelude.{◌≡◌, ℕ, ◌+◌, ◌-◌, ◌*◌, ◌≤◌, ◌<◌, false, length, slice_index};
ghost use Rattle.net_parts.specs.Outline.{turns_at};
ghost use Rattle.road_net.specs.Joins.{split_of};
ghost use Rattle.spillback_world.specs.Filling.{fitting, has_room, room_of};

use crate::store::Store;
use road_net::{Network, part_of_turn};

/// How much more a link can hold.
pub(crate) fn room(store: &Store, held: &[u32], link: u32) -> u32
    requires store { link < length store.now }
    requires held { link < length held.now }
    ensures { result ≡ room_of store.now held.now link }
{
    store.room(link).saturating_sub(held[link as usize])
}

/// Whether there is room for each part of an amount that link `l` discharges.
fn has_room(net: &Network, store: &Store, held: &[u32], l: u32, amount: u32) -> bool
    requires link { l < length net.now.link_names }
    requires store { length store.now ≡ length net.now.link_names }
    requires held { length held.now ≡ length net.now.link_names }
    ensures { result ≡ has_room (turns_at net.now l) (room_of store.now held.now) amount }
{
    let mut before = 0;
    for turn in net.turns(l) {
        let part = part_of_turn(amount, before, turn.share);
        if part > room(store, held, turn.exit) {
            return false;
        }
        before += turn.share;
    }
    true
}

/// Of the amounts up to one, the most that may still have room for a part with this share.
fn most_for(room: u32, share: u32, most: u32) -> u32
    ensures most { result ≤ most }
    ensures above { (a : ℕ) → result < a → a ≤ most → (room + 1) * 1000 < a * share }
{
    if share == 0 {
        return most;
    }
    u64::from(most).min((u64::from(room) + 1) * 1000 / u64::from(share)) as u32
}

/// Of the amounts up to the wish, the most for whose parts alone, without those of smaller amounts, there may be room.
fn first_try(net: &Network, store: &Store, held: &[u32], l: u32, wish: u32) -> u32
    requires link { l < length net.now.link_names }
    requires store { length store.now ≡ length net.now.link_names }
    requires held { length held.now ≡ length net.now.link_names }
    ensures most { result ≤ wish }
    ensures above { (a : ℕ) → result < a → a ≤ wish
        → has_room (turns_at net.now l) (room_of store.now held.now) a ≡ false }
{
    let mut most = wish;
    for turn in net.turns(l) {
        most = most_for(room(store, held, turn.exit), turn.share, most);
    }
    most
}

/// The greatest amount, up to the wish, that link `l` may discharge: there is room for each of its parts. The parts of a
/// smaller amount may be greater, so the amounts are tried one by one.
///
/// docs/RULES.md, "Storage".
pub(crate) fn allowed(net: &Network, store: &Store, held: &[u32], l: u32, wish: u32) -> u32
    requires link { l < length net.now.link_names }
    requires store { length store.now ≡ length net.now.link_names }
    requires held { length held.now ≡ length net.now.link_names }
    ensures value { result ≡ fitting (turns_at net.now l) (room_of store.now held.now) wish }
    ensures most { result ≤ wish }
    ensures fits { (k : ℕ) → split_of (turns_at net.now l) result k ≤ room_of store.now held.now k }
{
    if wish == 0 {
        return 0;
    }
    for below in (0..first_try(net, store, held, l, wish)).rev() {
        if has_room(net, store, held, l, below + 1) {
            return below + 1;
        }
    }
    0
}
