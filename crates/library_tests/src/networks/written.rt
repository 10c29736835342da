//! What is written of a network.
ghost use Rattle.std.specs.Prelude.{◌<◌, length};

use net_file::{read_network, write_network};
use road_net::Network;
use std::alloc::Global;
use std::test::Fail;
use worked_network::network;

/// Whether two networks have the same link at this number, with the same name and the same turns.
fn have_same_link(net: &Network, other: &Network, l: u32) -> bool
    requires net { l < length net.now.link_names }
    requires other { l < length other.now.link_names }
{
    net.link(l) == other.link(l)
        && net.link_name(l) == other.link_name(l)
        && net.turns(l) == other.turns(l)
}

/// Whether two networks have the same run, links and conflicts.
fn are_same(net: &Network, other: &Network) -> bool {
    if net.links() != other.links() || net.nodes() != other.nodes() {
        return false;
    }
    for l in 0..net.links() {
        if !have_same_link(net, other, l) {
            return false;
        }
    }
    net.run() == other.run() && net.conflicts() == other.conflicts()
}

/// Whether a text is read as a network.
fn is_text_of(alloc: Global, text: &[u8], net: &Network) -> Result<bool, Fail> {
    if text.len() > 10_000 {
        return Err("a long text".into());
    }
    match read_network(alloc, text) {
        Ok(back) => Ok(are_same(net, &back)),
        Err(_) => Err("no network again".into()),
    }
}

/// Whether what is written of a network is read as that network.
fn is_read_as_it_was(alloc: Global, net: &Network) -> Result<bool, Fail> {
    let text = write_network(alloc, net)?;
    is_text_of(alloc, &text, net)
}

/// Whether what is written of the worked network is read as that network.
fn is_read_again(alloc: Global) -> Result<bool, Fail> {
    match network(alloc, 4) {
        Ok(net) => is_read_as_it_was(alloc, &net),
        Err(_) => Err("no network".into()),
    }
}

#[test]
fn a_written_network_is_read_as_it_was(rt: HostRuntime) -> Result<(), Fail> {
    assert!(rt; is_read_again(rt.alloc())?);
    Ok(())
}
