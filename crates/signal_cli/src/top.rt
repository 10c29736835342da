//! The top call: the arguments of the command line, and what is done.
ghost use Rattle.std.specs.Prelude.{◌≡◌, ◌≢◌, ◌↔◌};
ghost use Rattle.command_words.specs.Calls.{Call, IsCall, IsOfControllers, IsOverNetwork, IsWithin, call_of};
ghost use Rattle.commands.specs.{Outcome.Outcome, Refusals.Says};
ghost use Rattle.commands.specs.declared.refusals.Refusal.TheVariants as refusal;
ghost use Rattle.signal_cli.specs.Meanings.{meaning_of};

use audit_jobs::{audit_job, queues_job};
use board_model::Gate;
use command_words::{Command, command_of};
use commands::{Refusal, Status, job, refuse};
use controller_jobs::{
    BoundsFixedWork, BoundsWork, CompareFixedWork, FixedWork, SpillActuatedWork, actuate_job,
    compare_job, scale_job, spill_job,
};
use foundation::text::Text;
use network_jobs::{
    TotalsWork, UpgradeWork, grid_job, instance_job, net_job, replay_job, turns_job,
};
use outside_world::{Shelf, Sink};
use planner_jobs::{certify_bound_job, certify_job, certify_par_job, check_job, plan_job};
use round_jobs::{DecideNodeWork, DecideWork};
use scene_jobs::{network_job, scene_job};
use std::alloc::Global;
use std::sync::Wait;
use std::thread::Threads;

/// The program: does what its arguments say over the shelf and the sinks, and answers how it ended.
///
/// The arguments are those of a command; all others are `Usage`, which touches neither shelf nor `out`. Each status of a
/// command comes with its cause, nothing is written to `out` before all work is done, and a refusal writes its line to
/// `err`. `net` alone waits and calls the gate; it and `certify_par` use threads.
///
/// docs/FORMATS.md, "Words".
pub fn signal<R: Threads + Wait + Sync, S: Shelf, O: Sink, E: Sink, G: Gate + Sync>(
    rt: &R,
    alloc: Global,
    words: &[Text],
    shelf: &mut S,
    out: &mut O,
    err: &mut E,
    gate: &G,
) -> Status
    ensures usage { (result ≡ Status.Usage) ↔ ((call : Call) → ¬ IsCall words.now call) }
    ensures unused { result ≡ Status.Usage → (S.state shelf.new ≡ S.state shelf.old)
        × (O.state out.new ≡ O.state out.old)
        × Says refusal.Usage (E.state err.old) (E.state err.new) }
    ensures called { result ≢ Status.Usage → (call : Call) × IsCall words.now call }
    ensures outcome { (call : Call) → IsCall words.now call → Outcome (meaning_of call)
        (record { shelf = S.state shelf.old; out = O.state out.old; err = E.state err.old })
        (record { shelf = S.state shelf.new; out = O.state out.new; err = E.state err.new }) result }
{
    match command_of(words) {
        Some(command) => run(rt, alloc, command, shelf, out, err, gate),
        None => refuse(alloc, Refusal::Usage, err),
    }
}

/// Does what a command says.
fn run<R: Threads + Wait + Sync, S: Shelf, O: Sink, E: Sink, G: Gate + Sync>(
    rt: &R,
    alloc: Global,
    command: Command<'_>,
    shelf: &mut S,
    out: &mut O,
    err: &mut E,
    gate: &G,
) -> Status
    requires { IsWithin (call_of command) }
    ensures { Outcome (meaning_of (call_of command.entry))
        (record { shelf = S.state shelf.old; out = O.state out.old; err = E.state err.old })
        (record { shelf = S.state shelf.new; out = O.state out.new; err = E.state err.new }) result }
{
    match command {
        Command::Plan { file } => plan_job(alloc, file, shelf, out, err),
        Command::Certify { file } => certify_job(alloc, file, shelf, out, err),
        Command::CertifyBound { file } => certify_bound_job(alloc, file, shelf, out, err),
        Command::CertifyPar { file, width } => {
            certify_par_job(rt, alloc, file, width, shelf, out, err)
        }
        Command::Check { file } => check_job(alloc, file, shelf, out, err),
        Command::Turns { .. }
        | Command::Totals { .. }
        | Command::Replay { .. }
        | Command::Net { .. }
        | Command::Instance { .. }
        | Command::Audit { .. }
        | Command::Queues { .. }
        | Command::Actuate { .. }
        | Command::Fixed { .. }
        | Command::Compare { .. }
        | Command::CompareFixed { .. }
        | Command::Scale { .. }
        | Command::Spill { .. }
        | Command::SpillActuated { .. }
        | Command::Decide { .. }
        | Command::DecideNode { .. } => {
            run_over_network(rt, alloc, command, shelf, out, err, gate)
        }
        Command::Grid {
            number,
            side,
            rounds,
        } => grid_job(alloc, number, side, rounds, out, err),
        Command::Upgrade { net } => network_job(alloc, &UpgradeWork, net, shelf, out, err),
        Command::Bounds { net } => network_job(alloc, &BoundsWork, net, shelf, out, err),
        Command::BoundsFixed { net, plan } => job(
            alloc,
            &BoundsFixedWork { net, plan },
            shelf,
            out,
            err,
        ),
    }
}

/// Does what a command says over a network and what enters it, or over a report or a round of it.
fn run_over_network<R: Threads + Wait + Sync, S: Shelf, O: Sink, E: Sink, G: Gate + Sync>(
    rt: &R,
    alloc: Global,
    command: Command<'_>,
    shelf: &mut S,
    out: &mut O,
    err: &mut E,
    gate: &G,
) -> Status
    requires within { IsWithin (call_of command) }
    requires over { IsOverNetwork (call_of command) }
    ensures { Outcome (meaning_of (call_of command.entry))
        (record { shelf = S.state shelf.old; out = O.state out.old; err = E.state err.old })
        (record { shelf = S.state shelf.new; out = O.state out.new; err = E.state err.new }) result }
{
    match command {
        Command::Turns { net, arr } => turns_job(alloc, net, arr, shelf, out, err),
        Command::Totals { net, arr } => scene_job(alloc, &TotalsWork, net, arr, shelf, out, err),
        Command::Replay { net, arr, hist } => replay_job(alloc, net, arr, hist, shelf, out, err),
        Command::Net { net, arr } => net_job(rt, alloc, net, arr, shelf, out, err, gate),
        Command::Instance {
            net,
            arr,
            hist,
            node,
            round,
        } => instance_job(alloc, net, arr, hist, node, round, shelf, out, err),
        Command::Audit { net, arr, report } => {
            audit_job(alloc, net, arr, report, shelf, out, err)
        }
        Command::Queues { net, arr, report } => {
            queues_job(alloc, net, arr, report, shelf, out, err)
        }
        Command::Actuate { .. }
        | Command::Fixed { .. }
        | Command::Compare { .. }
        | Command::CompareFixed { .. }
        | Command::Scale { .. }
        | Command::Spill { .. }
        | Command::SpillActuated { .. }
        | Command::Decide { .. }
        | Command::DecideNode { .. } => run_controllers(alloc, command, shelf, out, err),
        _ => unreachable!(),
    }
}

/// Does what a command says that runs a network under other controllers than the planners, or under several, or decides a round.
fn run_controllers<S: Shelf, O: Sink, E: Sink>(
    alloc: Global,
    command: Command<'_>,
    shelf: &mut S,
    out: &mut O,
    err: &mut E,
) -> Status
    requires within { IsWithin (call_of command) }
    requires controllers { IsOfControllers (call_of command) }
    ensures { Outcome (meaning_of (call_of command.entry))
        (record { shelf = S.state shelf.old; out = O.state out.old; err = E.state err.old })
        (record { shelf = S.state shelf.new; out = O.state out.new; err = E.state err.new }) result }
{
    match command {
        Command::Actuate { net, arr } => actuate_job(alloc, net, arr, shelf, out, err),
        Command::Fixed { net, arr, plan } => job(
            alloc,
            &FixedWork { net, arr, plan },
            shelf,
            out,
            err,
        ),
        Command::Compare { net, arr } => compare_job(alloc, net, arr, shelf, out, err),
        Command::CompareFixed { net, arr, plan } => {
            job(alloc, &CompareFixedWork { net, arr, plan }, shelf, out, err)
        }
        Command::Scale {
            net,
            arr,
            first,
            last,
            step,
        } => scale_job(alloc, net, arr, first, last, step, shelf, out, err),
        Command::Spill { net, arr, store } => spill_job(alloc, net, arr, store, shelf, out, err),
        Command::SpillActuated { net, arr, store } => {
            job(
                alloc,
                &SpillActuatedWork { net, arr, store },
                shelf,
                out,
                err,
            )
        }
        Command::Decide { net, state } => job(alloc, &DecideWork { net, state }, shelf, out, err),
        Command::DecideNode { net, state, node } => {
            job(alloc, &DecideNodeWork { net, state, node }, shelf, out, err)
        }
        _ => unreachable!(),
    }
}
