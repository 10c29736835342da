//! What the records of a state tell.
ghost use Rattle.std.specs.Prelude.{◌≡◌, ◌<◌, IfSome, length};
ghost use Rattle.net_parts.specs.Numbers.{number_of};
ghost use Rattle.road_net.specs.Network.{IsNetwork};
ghost use Rattle.round_states.specs.StateRecords.{entry_link_of, place_of, told_link_of};

use board_model::Row;
use control_flow::greens::Green;
use record_text::{link_named, node_named};
use road_net::Network;

/// A queue at the end of a link.
#[derive(Debug, Clone, Copy, PartialEq, Eq)]
pub(crate) struct Queue {
    /// What stands in it, in thousandths of a vehicle.
    pub amount: u32,
    /// For how many seconds it has stood.
    pub stood: u32,
}

/// What a record says.
#[derive(Debug, Clone, Copy, PartialEq, Eq)]
pub(crate) enum StateRecord {
    /// The second in which the round begins.
    Now(u32),
    /// A row of the timeline of a node.
    Green(Green),
    /// The queue of a link.
    Queue(Queue),
    /// What comes on a link in a second.
    Coming(Row),
    /// The version of the forecast of a link.
    Version(u32),
    /// A row of the forecast of a link.
    Row(Row),
    /// What was planned, which says nothing of a state.
    Plan,
}

/// What a record says, and of which node or link: its number, and 0 where it says it of none.
#[derive(Debug, Clone, Copy, PartialEq, Eq)]
pub(crate) struct Entry {
    pub place: u32,
    pub content: StateRecord,
}

/// The number of the node or link that a record names; none where the network has none with this name of which the
/// record can speak. Records of one link follow one another, so a link is tried first: the one with the number `near`.
pub(crate) fn place_of(net: &Network, content: &StateRecord, name: &[u8], near: u32) -> Option<u32>
    requires { IsNetwork net.now }
    ensures { result ≡ place_of net.now content.now name.now }
{
    match content {
        StateRecord::Now(_) | StateRecord::Plan => Some(0),
        StateRecord::Green(_) => node_named(net, name),
        StateRecord::Queue(_) | StateRecord::Coming(_) => entry_link(net, name, near),
        StateRecord::Version(_) | StateRecord::Row(_) => told_link(net, name, near),
    }
}

/// The number of the link with this name; the one with the number `near` is tried first.
fn link_near(net: &Network, name: &[u8], near: u32) -> Option<u32>
    requires { IsNetwork net.now }
    ensures { result ≡ number_of net.now.link_names name.now }
{
    if near < net.links() && net.link_name(near).as_bytes() == name {
        return Some(near);
    }
    link_named(net, name)
}

/// The number of the entry link with this name.
#[tactic(auto, unfolding(crate::specs::StateRecords::entry_link_of))]
fn entry_link(net: &Network, name: &[u8], near: u32) -> Option<u32>
    requires { IsNetwork net.now }
    ensures value { result ≡ entry_link_of net.now name.now }
    ensures below { IfSome result (λ link. link < length net.now.link_names) }
{
    let link = link_near(net, name, near)?;
    if net.link(link).to.is_some() {
        Some(link)
    } else {
        None
    }
}

/// The number of the link with this name on which a node tells another one.
#[tactic(auto, unfolding(crate::specs::StateRecords::told_link_of))]
fn told_link(net: &Network, name: &[u8], near: u32) -> Option<u32>
    requires { IsNetwork net.now }
    ensures { result ≡ told_link_of net.now name.now }
{
    let link = entry_link(net, name, near)?;
    if net.link(link).from.is_some() {
        Some(link)
    } else {
        None
    }
}
