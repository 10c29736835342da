//! The board steps of a node in a round.
ghost use Rattle.std.specs.Prelude.{◌≡◌, ◌<◌, ◌≤◌, ◌++◌, All, IfOk, OnOk, filter, length, map, vec_len};
ghost use Rattle.net_parts.specs.Limits.{most_links};
ghost use Rattle.histories.specs.Sides as sides;
ghost use Rattle.histories.specs.Steps.{board_steps, AreSteps};

use foundation::threads::CrossesThreads;
use road_net::{Network, law_of_network};
use std::alloc::{AllocError, Global};

/// What a node does at the board of a link in a round.
///
/// docs/RULES.md, "Rounds".
#[derive(Debug, Clone, Copy, PartialEq, Eq)]
pub enum BoardStep {
    /// It reads the board of the link with this number.
    Read(u32),
    /// It publishes on the board of the link with this number.
    Publish(u32),
}

impl CrossesThreads for BoardStep {}

/// How many board steps a node has in a round, at most as many as a network may have links. It takes no memory.
///
/// docs/RULES.md, "Rounds".
pub fn step_count(net: &Network, node: u32) -> u32
    requires { node < length net.now.node_names }
    ensures value { result ≡ length (board_steps net.now node) }
    ensures few { result ≤ most_links }
{
    joined_count(net, Side::Begin, net.entry_links(node))
        + joined_count(net, Side::End, net.exit_links(node))
}

/// The board steps of a node in a round, in their order, at most as many as a network may have links. `Err`: out of memory.
///
/// docs/RULES.md, "Rounds".
pub fn node_steps(alloc: Global, net: &Network, node: u32) -> Result<Vec<BoardStep>, AllocError>
    requires { node < length net.now.node_names }
    ensures value { IfOk result (λ steps. steps.items ≡ board_steps net.now node) }
    ensures few { IfOk result (λ steps. vec_len steps ≤ most_links) }
{
    let mut steps = Vec::new(alloc);
    push_steps(net, Side::Begin, net.entry_links(node), &mut steps)?;
    push_steps(net, Side::End, net.exit_links(node), &mut steps)?;
    Ok(steps)
}

/// A side of a link: the node at its begin publishes on it, and the node at its end reads it.
#[derive(Clone, Copy)]
enum Side {
    Begin,
    End,
}

/// Whether a link has a node at a side.
fn has_node(net: &Network, side: Side, link: u32) -> bool
    requires { link < length net.now.link_names }
    ensures { result ≡ sides.has_node net.now side link }
{
    match side {
        Side::Begin => net.link(link).from.is_some(),
        Side::End => net.link(link).to.is_some(),
    }
}

/// How many of these links have a node at a side.
fn joined_count(net: &Network, side: Side, links: &[u32]) -> u32
    requires exist { All (λ l. l < length net.now.link_names) links.now }
    requires few { length links.now ≤ most_links }
    ensures { result ≡ length (filter (sides.has_node net.now side) links.now) }
{
    let mut count = 0;
    for link in links {
        if has_node(net, side, *link) {
            count += 1;
        }
    }
    count
}

/// The step on a link whose other side this is: a reading where a node is at its begin, and a publishing where one is at its end.
fn step_across(side: Side, link: u32) -> BoardStep
    ensures { result ≡ sides.step_across side link }
{
    match side {
        Side::Begin => BoardStep::Read(link),
        Side::End => BoardStep::Publish(link),
    }
}

/// Appends the step on each of these links that has a node at the other side.
fn push_steps(
    net: &Network,
    side: Side,
    links: &[u32],
    steps: &mut Vec<BoardStep>,
) -> Result<(), AllocError>
    requires { All (λ l. l < length net.now.link_names) links.now }
    ensures { OnOk result (steps.new.items
        ≡ steps.old.items ++ map (sides.step_across side) (filter (sides.has_node net.now side) links.now)) }
{
    for link in links {
        if has_node(net, side, *link) {
            steps.push(step_across(side, *link))?;
        }
    }
    Ok(())
}

/// What is true of the board steps of every network: there are none past the last node, a node has at most as many in a round
/// as a network may have links, and on a link between two nodes the one at its begin publishes, and the one at its end reads,
/// each once in a round.
///
/// docs/RULES.md, "Rounds".
pub fn law_of_steps(net: &Network)
    ensures { AreSteps net.now }
{
    law_of_network(net);
}
