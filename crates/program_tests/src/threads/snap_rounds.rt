//! The rounds of a network at boards whose forecasts are read beside the writer, with boards and passes of the test.
ghost use Rattle.std.specs.Prelude.{◌≡◌, [], All, length};
ghost use Rattle.arrivals.specs.Amounts.{AreArrivals};
ghost use Rattle.link_boards.specs.Passes.{AreAllPasses};
ghost use Rattle.net_threads.specs.Ends.{AreEndsOf};
ghost use Rattle.node_rounds.specs.Calls.{HaveCallsLeft};
ghost use Rattle.snap_boards.specs.Boards.{shared_of};

use super::copies::{network_of_copies, vehicles_of_copies};
use super::pairs::{COPIES, MET, PAIRS, Played, can_meet, gate_of};
use crate::gates::meeting::MeetingGate;
use arrivals::{Arrivals, read_arrivals};
use forward_dp::LayerPlanner;
use net_threads::{open_boards, run_rounds_snap};
use road_net::Network;
use snap_boards::{SnapBoards, SnapPass};
use std::alloc::{AllocError, Global};
use std::sync::Wait;
use std::test::Fail;
use std::thread::Threads;
use worked_network::network_of;

/// Plays the rounds by new passes. How many vehicles, in thousandths, entered.
fn play<R: Threads + Wait + Sync>(
    rt: &R,
    alloc: Global,
    net: &Network,
    arrivals: &Arrivals,
    boards: &SnapBoards,
    passes: &mut [SnapPass],
    gate: &MeetingGate,
) -> Result<u64, AllocError>
    requires arrivals { AreArrivals net.now arrivals.now }
    requires links { boards.now.links ≡ length net.now.link_names }
    requires ends { AreEndsOf net.now boards.now.ends }
    requires all { AreAllPasses (shared_of boards.now) passes.old }
    requires nodes { length passes.old ≡ length net.now.node_names }
    requires fresh { All (λ p. p.calls ≡ []) passes.old }
    requires left { HaveCallsLeft net.now passes.old }
    ensures { AreAllPasses (shared_of boards.now) passes.new }
{
    let planners = vec![in alloc; LayerPlanner; net.nodes() as usize]?;
    let run = run_rounds_snap(rt, alloc, net, arrivals, planners, boards, passes, gate)?;
    Ok(run.totals.entered)
}

/// Plays the rounds by new boards.
fn play_anew<R: Threads + Wait + Sync>(
    rt: &R,
    gate: &MeetingGate,
    alloc: Global,
    net: &Network,
    arrivals: &Arrivals,
) -> Result<u64, AllocError>
    requires { AreArrivals net.now arrivals.now }
{
    let (boards, mut passes) = open_boards(rt, alloc, net)?;
    let entered = play(
        rt,
        alloc,
        net,
        arrivals,
        &boards,
        passes.as_mut_slice(),
        gate,
    );
    let _logs = boards.close(rt, alloc, passes)?;
    entered
}

/// What the gate of each pair has met, and how many vehicles, in thousandths, entered.
fn play_pairs<R: Threads + Wait + Sync>(
    rt: &R,
    alloc: Global,
    net: &Network,
    arrivals: &Arrivals,
) -> Result<Vec<Played>, AllocError>
    requires { AreArrivals net.now arrivals.now }
{
    let mut played = Vec::new(alloc);
    for &[first, second] in PAIRS {
        let gate = gate_of(first, second);
        let entered = play_anew(rt, &gate, alloc, net, arrivals)?;
        played.push((gate.met(), entered))?;
    }
    Ok(played)
}

/// The same in a network of the copies.
fn play_copies<R: Threads + Wait + Sync>(
    rt: &R,
    alloc: Global,
    net: &Network,
) -> Result<Vec<Played>, Fail> {
    let vehicles = vehicles_of_copies(alloc, COPIES)?;
    let arrivals = read_arrivals(alloc, vehicles.as_bytes(), net)?;
    Ok(play_pairs(rt, alloc, net, &arrivals)?)
}

/// The same in the network of a text.
fn play_text<R: Threads + Wait + Sync>(
    rt: &R,
    alloc: Global,
    text: &str,
) -> Result<Vec<Played>, Fail> {
    match network_of(alloc, text) {
        Ok(net) => play_copies(rt, alloc, &net),
        Err(_) => Err("no network".into()),
    }
}

#[test]
fn two_reads_inside_beside_the_writer(rt: HostRuntime) -> Result<(), Fail> {
    if !can_meet(&rt) {
        return Ok(());
    }
    let text = network_of_copies(rt.alloc(), COPIES)?;
    let played = play_text(&rt, rt.alloc(), text.as_str())?;
    assert_eq!(rt; played.as_slice(), [(MET, 5000); PAIRS.len()].as_slice());
    Ok(())
}
