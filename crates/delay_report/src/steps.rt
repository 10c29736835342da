//! The records of the board steps of a history.
ghost use Rattle.std.specs.Prelude.{◌≡◌, ◌+◌, ◌<◌, [], ◌∷◌, IfOk, OnOk, codes, length, map};
ghost use Rattle.std.specs.Fmt.{decimal};
ghost use Rattle.std.specs.List.{range_with_len};
ghost use Rattle.histories.specs.{Histories.IsLawful, Histories.round_at, Histories.step_at, Steps.board_steps};
ghost use Rattle.net_parts.specs.Outline.{link_name_at, node_name_at};
ghost use Rattle.road_net.specs.Network.{IsNetwork};
ghost use Rattle.delay_report.specs.{Reports.step_record_at, Walks.HasWalkedTo, Walks.link_of};
ghost use Rattle.world_records.specs.Written.{Adds};

use csv::Writer;
use histories::{BoardStep, node_steps};
use road_net::Network;
use std::alloc::{AllocError, Global};
use world_records::{digits_of, write_record};

/// How far the nodes and links of a network have come along a history.
#[derive(Drop)]
struct Walk {
    /// The steps of each node in a round.
    steps: Vec<Vec<BoardStep>>,
    /// How many steps each node has taken.
    taken: Vec<usize>,
    /// How many forecasts were published on each link.
    made: Vec<u64>,
}

/// Writes the records of the steps of a history of these nodes.
pub(crate) fn write_steps(
    alloc: Global,
    net: &Network,
    nodes: &[u32],
    out: &mut Writer<Vec<u8>>,
) -> Result<(), AllocError>
    requires { IsLawful net.now nodes.now }
    ensures records { OnOk result (Adds out.old out.new
        (map (step_record_at net.now nodes.now) (range_with_len 0 (length nodes.now)))) }
    ensures network { OnOk result (IsNetwork net.now) }
{
    let mut walk = begin(alloc, net, nodes)?;
    for place in 0..nodes.len() {
        write_step(net, nodes, place, &mut walk, out)?;
    }
    Ok(())
}

/// Where all stand before the first step.
fn begin(alloc: Global, net: &Network, nodes: &[u32]) -> Result<Walk, AllocError>
    ensures { IfOk result (λ walk. HasWalkedTo net.now nodes.now 0 walk) }
{
    let steps = all_steps(alloc, net)?;
    let taken = vec![in alloc; 0; net.nodes() as usize]?;
    let made = vec![in alloc; 0; net.links() as usize]?;
    Ok(Walk { steps, taken, made })
}

/// The board steps of each node in a round.
fn all_steps(alloc: Global, net: &Network) -> Result<Vec<Vec<BoardStep>>, AllocError>
    ensures { IfOk result (λ steps. map (λ own. own.items) steps.items
        ≡ map (board_steps net.now) (range_with_len 0 (length net.now.node_names))) }
{
    let mut steps = Vec::new(alloc);
    for node in 0..net.nodes() {
        steps.push(node_steps(alloc, net, node)?)?;
    }
    Ok(steps)
}

/// Writes the record of the step at a place, and goes past it.
fn write_step(
    net: &Network,
    nodes: &[u32],
    place: usize,
    walk: &mut Walk,
    out: &mut Writer<Vec<u8>>,
) -> Result<(), AllocError>
    requires lawful { IsLawful net.now nodes.now }
    requires inside { place < length nodes.now }
    requires stands { HasWalkedTo net.now nodes.now place walk.old }
    ensures record { OnOk result (Adds out.old out.new (step_record_at net.now nodes.now place ∷ [])) }
    ensures stands { OnOk result (HasWalkedTo net.now nodes.now (place + 1) walk.new) }
{
    let node = nodes[place];
    let (round, step) = next_step(net, nodes, place, walk);
    walk.taken[node as usize] += 1;
    match step {
        BoardStep::Read(link) => {
            write_fields(
                net,
                round,
                node,
                b"read",
                link,
                walk.made[link as usize],
                out,
            )
        }
        BoardStep::Publish(link) => {
            let version = walk.made[link as usize] + 1;
            walk.made[link as usize] = version;
            write_fields(net, round, node, b"publish", link, version, out)
        }
    }
}

/// The round of the step at a place, and the step.
fn next_step(net: &Network, nodes: &[u32], place: usize, walk: &Walk) -> (usize, BoardStep)
    requires lawful { IsLawful net.now nodes.now }
    requires inside { place < length nodes.now }
    requires stands { HasWalkedTo net.now nodes.now place walk.now }
    ensures round { result.0 ≡ round_at (board_steps net.now) nodes.now place }
    ensures step { result.1 ≡ step_at (board_steps net.now) nodes.now place }
    ensures link { link_of result.1 < length net.now.link_names }
{
    let node = nodes[place] as usize;
    let own = walk.steps[node].as_slice();
    let taken = walk.taken[node];
    (taken / own.len(), own[taken % own.len()])
}

/// Writes the record of a step of this kind.
fn write_fields(
    net: &Network,
    round: usize,
    node: u32,
    kind: &[u8],
    link: u32,
    version: u64,
    out: &mut Writer<Vec<u8>>,
) -> Result<(), AllocError>
    requires node { node < length net.now.node_names }
    requires link { link < length net.now.link_names }
    ensures { OnOk result (Adds out.old out.new
        ((codes "step" ∷ decimal round ∷ node_name_at net.now node ∷ kind.now ∷ link_name_at net.now link
        ∷ decimal version ∷ [] ∷ []) ∷ [])) }
{
    let round = digits_of(round as u64);
    let version = digits_of(version);
    write_record(
        out,
        &[
            b"step",
            round.as_bytes(),
            net.node_name(node).as_bytes(),
            kind,
            net.link_name(link).as_bytes(),
            version.as_bytes(),
            b"",
        ],
    )
}
