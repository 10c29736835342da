//! The links on which a node hears and tells others, one after another.
ghost use Rattle.std.specs.Prelude.{◌≡◌, ◌<◌, All, IfOk, drop, filter, is_some, length};
ghost use Rattle.net_parts.specs.Outline.{link_at};
ghost use Rattle.std.specs.List.Sorted.{IsStrictlyIncreasing};
ghost use Rattle.road_net.specs.Network.{exit_links, heard_links};
ghost use Rattle.intersection_actor.specs.Acting.{reading, tells_from};

use crate::records::Want;
use road_net::Network;
use std::alloc::{AllocError, Global};

/// The links on which a node hears another one, in their order.
pub(crate) fn heard_links(alloc: Global, net: &Network, node: u32) -> Result<Vec<u32>, AllocError>
    requires { node < length net.now.node_names }
    ensures { IfOk result (λ links. links.items ≡ heard_links net.now node) }
{
    let entries = net.entry_links(node);
    let mut heard = Vec::with_capacity(alloc, entries.len())?;
    for link in entries {
        if net.link(*link).from.is_none() {
            continue;
        }
        heard.push(*link)?;
    }
    Ok(heard)
}

/// What a node wants that has read the first `count` of these links.
pub(crate) fn next_read(links: &[u32], count: usize) -> Want
    ensures { result ≡ reading (drop count links.now) }
{
    match links.get(count) {
        Some(link) => Want::Read(*link),
        None => Want::Commit,
    }
}

/// What a node wants that has told on its links below this one: to publish on the next link on which it tells another one.
pub(crate) fn next_told(net: &Network, node: u32, first: u64) -> Want
    requires { node < length net.now.node_names }
    ensures value { result ≡ tells_from net.now node first }
    ensures rising { IsStrictlyIncreasing (exit_links net.now node) }
{
    for link in net.exit_links(node) {
        if *link as u64 >= first && net.link(*link).to.is_some() {
            return Want::Publish(*link);
        }
    }
    Want::Done
}
