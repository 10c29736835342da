//! The rounds of a network, with boards and passes of the test.
ghost use Rattle.std.specs.Prelude.{◌≡◌, length};
ghost use Rattle.arrivals.specs.Amounts.{AreArrivals};
ghost use Rattle.link_boards.specs.Passes.{AreAllPasses, fresh_passes};
ghost use Rattle.node_rounds.specs.Calls.{node_calls};

use super::copies::{network_of_copies, vehicles_of_copies};
use super::pairs::{COPIES, MET, PAIRS, Played, can_meet, gate_of};
use crate::gates::meeting::MeetingGate;
use arrivals::{Arrivals, read_arrivals};
use forward_dp::LayerPlanner;
use net_threads::run_rounds;
use node_rounds::node_calls;
use plan_boards::{Boards, Pass};
use road_net::{Network, law_of_network};
use std::alloc::{AllocError, Global};
use std::sync::Wait;
use std::test::Fail;
use std::thread::Threads;
use worked_network::network_of;

/// Plays the rounds by new passes. How many vehicles, in thousandths, entered.
fn play<R: Threads + Wait + Sync>(
    rt: &R,
    alloc: Global,
    net: &Network,
    arrivals: &Arrivals,
    boards: &Boards,
    passes: &mut [Pass],
    gate: &MeetingGate,
) -> Result<u64, AllocError>
    requires arrivals { AreArrivals net.now arrivals.now }
    requires links { boards.now.links ≡ length net.now.link_names }
    requires all { AreAllPasses boards.now passes.old }
    requires passes { passes.old ≡ fresh_passes boards.now.id (node_calls net.now) }
{
    let planners = vec![in alloc; LayerPlanner; net.nodes() as usize]?;
    let run = run_rounds(rt, alloc, net, arrivals, planners, boards, passes, gate)?;
    Ok(run.totals.entered)
}

/// Plays the rounds by new boards.
fn play_anew<R: Threads + Wait + Sync>(
    rt: &R,
    gate: &MeetingGate,
    alloc: Global,
    net: &Network,
    arrivals: &Arrivals,
) -> Result<u64, AllocError>
    requires { AreArrivals net.now arrivals.now }
{
    law_of_network(net);
    let calls = node_calls(alloc, net)?;
    let (boards, mut passes) = Boards::new(alloc, net.links(), calls.as_slice())?;
    play(
        rt,
        alloc,
        net,
        arrivals,
        &boards,
        passes.as_mut_slice(),
        gate,
    )
}

/// What the gate of each pair has met, and how many vehicles, in thousandths, entered.
fn play_pairs<R: Threads + Wait + Sync>(
    rt: &R,
    alloc: Global,
    net: &Network,
    arrivals: &Arrivals,
) -> Result<Vec<Played>, AllocError>
    requires { AreArrivals net.now arrivals.now }
{
    let mut played = Vec::new(alloc);
    for &[first, second] in PAIRS {
        let gate = gate_of(first, second);
        let entered = play_anew(rt, &gate, alloc, net, arrivals)?;
        played.push((gate.met(), entered))?;
    }
    Ok(played)
}

/// The same in a network of the copies.
fn play_copies<R: Threads + Wait + Sync>(
    rt: &R,
    alloc: Global,
    net: &Network,
) -> Result<Vec<Played>, Fail> {
    let vehicles = vehicles_of_copies(alloc, COPIES)?;
    let arrivals = read_arrivals(alloc, vehicles.as_bytes(), net)?;
    Ok(play_pairs(rt, alloc, net, &arrivals)?)
}

/// The same in the network of a text.
fn play_text<R: Threads + Wait + Sync>(
    rt: &R,
    alloc: Global,
    text: &str,
) -> Result<Vec<Played>, Fail> {
    match network_of(alloc, text) {
        Ok(net) => play_copies(rt, alloc, &net),
        Err(_) => Err("no network".into()),
    }
}

#[test]
fn two_reads_inside(rt: HostRuntime) -> Result<(), Fail> {
    if !can_meet(&rt) {
        return Ok(());
    }
    let text = network_of_copies(rt.alloc(), COPIES)?;
    let played = play_text(&rt, rt.alloc(), text.as_str())?;
    assert_eq!(rt; played.as_slice(), [(MET, 5000); PAIRS.len()].as_slice());
    Ok(())
}
