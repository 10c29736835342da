//! The command `net NET ARR`.
ghost use Rattle.commands.specs.{Ending.Makes, Outcome.Outcome};
ghost use Rattle.network_jobs.specs.Meanings.{net_meaning};

use super::rounds::report;
use board_model::Gate;
use commands::{Made, Refusal, Status, end};
use outside_world::{Shelf, Sink};
use scene_jobs::fetch_scene;
use std::alloc::Global;
use std::sync::Wait;
use std::thread::Threads;

// The report of the run in threads, with the network and the arrivals in the files.
fn make_report<R: Threads + Wait + Sync, S: Shelf, G: Gate + Sync>(
    rt: &R,
    alloc: Global,
    shelf: &mut S,
    net: &str,
    arr: &str,
    gate: &G,
) -> Result<Made, Refusal>
    ensures { Makes (net_meaning net.now arr.now) (S.state shelf.old) (S.state shelf.new) result }
{
    let scene = fetch_scene(alloc, shelf, net, arr)?;
    let text = report(rt, alloc, &scene.network, &scene.arrivals, gate)?;
    Ok(Made::Done(text))
}

/// The command `net NET ARR`: plays the network and the arrivals in the files with the nodes in threads, each with a planner and a
/// pass at the boards of its own, and writes the report of the run of the history that the boards tell. It is the
/// report of one lawful history, which is read from it again; which one it is, the machine decides. In it all is kept that is
/// promised of runs.
///
/// `gate.before` is called before each board step, and `gate.inside` within it. Each status has its cause, and each refusal writes its
/// line to `err`, as `signal` says. It waits for the boards and the threads.
///
/// docs/FORMATS.md, "Words".
pub fn net_job<R: Threads + Wait + Sync, S: Shelf, O: Sink, E: Sink, G: Gate + Sync>(
    rt: &R,
    alloc: Global,
    net: &str,
    arr: &str,
    shelf: &mut S,
    out: &mut O,
    err: &mut E,
    gate: &G,
) -> Status
    ensures { Outcome (net_meaning net.now arr.now)
        (record { shelf = S.state shelf.old; out = O.state out.old; err = E.state err.old })
        (record { shelf = S.state shelf.new; out = O.state out.new; err = E.state err.new }) result }
{
    let made = make_report(rt, alloc, shelf, net, arr, gate);
    end(alloc, made, out, err)
}
