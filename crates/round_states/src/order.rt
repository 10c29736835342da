//! In which order the records of a state may stand.
ghost use Rattle.std.specs.Prelude.{◌≡◌, ◌↔◌, IsTrue};
ghost use Rattle.road_net.specs.Network.{IsNetwork};
ghost use Rattle.round_states.specs.Order.{FitsAfter, IsBegin, IsFirstSaid, IsLaterSaid, IsOnTheWay, begin_said, now_of};
ghost use Rattle.round_states.specs.Texts.{round_in};

use crate::entries::{Entry, StateRecord};
use road_net::Network;

/// Whether a record may stand after these.
pub(crate) fn fits_after(net: &Network, before: &[Entry], entry: &Entry) -> bool
    ensures { IsTrue result ↔ FitsAfter net.now before.now entry.now }
{
    match before.first() {
        Some(first) => is_later(net, begin_said(&first.content), entry.place, &entry.content),
        None => is_first(net, &entry.content),
    }
}

/// The begin of the round, by the first record; 0 where there is none.
pub(crate) fn now_of(entries: &[Entry]) -> u32
    ensures { result ≡ now_of entries.now }
{
    match entries.first() {
        Some(first) => begin_said(&first.content),
        None => 0,
    }
}

/// The round that begins then.
pub(crate) fn round_of(net: &Network, entries: &[Entry]) -> u32
    ensures { result ≡ round_in net.now entries.now }
{
    now_of(entries) / net.run().step
}

/// The second that is told as the begin of the round; 0 where none is.
fn begin_said(content: &StateRecord) -> u32
    ensures { result ≡ begin_said content.now }
{
    match content {
        StateRecord::Now(second) => *second,
        _ => 0,
    }
}

/// Whether the first record may say this.
fn is_first(net: &Network, content: &StateRecord) -> bool
    ensures { IsTrue result ↔ IsFirstSaid net.now content.now }
{
    match content {
        StateRecord::Now(second) => is_begin(net, *second),
        _ => false,
    }
}

/// Whether a later record may say this of a node or link.
fn is_later(net: &Network, now: u32, place: u32, content: &StateRecord) -> bool
    ensures { IsTrue result ↔ IsLaterSaid net.now now place content.now }
{
    match content {
        StateRecord::Now(_) => false,
        StateRecord::Coming(row) => is_on_the_way(net, now, place, row.second),
        _ => true,
    }
}

/// Whether a round begins in this second, which is one that the network's files may name.
fn is_begin(net: &Network, second: u32) -> bool
    ensures { IsTrue result ↔ IsBegin net.now second }
{
    second < net.known_seconds() && second % net.run().step == 0
}

/// Whether what comes on a link in this second is on the way.
fn is_on_the_way(net: &Network, now: u32, link: u32, second: u32) -> bool
    ensures { IsTrue result ↔ IsOnTheWay net.now now link second }
{
    link < net.links() && now <= second && second - now < net.link(link).travel
}
