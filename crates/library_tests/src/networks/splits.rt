//! How amounts are split among the turns of a link.
ghost use Rattle.std.specs.Prelude.{◌<◌, length};

use net_file::read_network;
use road_net::Network;
use std::alloc::Global;
use std::test::Fail;
use worked_network::NETWORK;

/// The turns of the link `ab`, and three in their place, one of them into a further link.
const TWO_TURNS: &str = r#"{ exit = "ba", share = 500 }, { exit = "xb", share = 500 }"#;

const THREE_TURNS: &str =
    r#"{ exit = "xb", share = 333 }, { exit = "yb", share = 333 }, { exit = "ba", share = 334 }"#;

/// The name of the last link, and the whole of it before the name of a further one.
const LAST_LINK: &str = r#"name = "xb""#;

const FURTHER_LINK: &str = r#"name = "xb", from = "b", travel = 10, sat = 500 }, { name = "yb""#;

/// An amount, and the parts of it that turn from each link into each link, of the network with three turns.
const SEVEN: &[&[u32]] = &[
    &[0, 7, 0, 0, 0, 0],
    &[0, 0, 3, 0, 2, 2],
    &[0, 7, 0, 0, 0, 0],
    &[0, 0, 0, 0, 7, 0],
    &[0, 0, 0, 0, 0, 0],
    &[0, 0, 0, 0, 0, 0],
];

/// The same of the greatest amount, of the network with two.
const GREATEST: &[&[u32]] = &[
    &[0, 4_294_967_295, 0, 0, 0],
    &[0, 0, 2_147_483_647, 0, 2_147_483_648],
    &[0, 4_294_967_295, 0, 0, 0],
    &[0, 0, 0, 0, 4_294_967_295],
    &[0, 0, 0, 0, 0],
];

/// Whether the parts of an amount that turn from a link into each link are these.
fn has_parts_of(net: &Network, l: u32, amount: u32, parts: &[u32]) -> bool
    requires { l < length net.now.link_names }
{
    if net.links() as usize != parts.len() {
        return false;
    }
    for exit in 0..net.links() {
        if net.split(l, amount, exit) != parts[exit as usize] {
            return false;
        }
    }
    true
}

/// Whether the parts of an amount that turn from each link into each link are these.
fn has_parts(net: &Network, amount: u32, parts: &[&[u32]]) -> bool {
    if net.links() as usize != parts.len() {
        return false;
    }
    for l in 0..net.links() {
        if !has_parts_of(net, l, amount, parts[l as usize]) {
            return false;
        }
    }
    true
}

/// The same of the network of a text.
fn text_has_parts(alloc: Global, text: &str, amount: u32, parts: &[&[u32]]) -> bool {
    if text.len() > 10_000 {
        return false;
    }
    match read_network(alloc, text.as_bytes()) {
        Ok(net) => has_parts(&net, amount, parts),
        Err(_) => false,
    }
}

#[test]
fn parts_of_amounts(rt: HostRuntime) -> Result<(), Fail> {
    let alloc = rt.alloc();
    assert!(rt; text_has_parts(alloc, NETWORK, u32::MAX, GREATEST));
    let text = NETWORK
        .replace(alloc, TWO_TURNS, THREE_TURNS)?
        .replace(alloc, LAST_LINK, FURTHER_LINK)?;
    assert!(rt; text_has_parts(alloc, text.as_str(), 7, SEVEN));
    Ok(())
}
