//! A run in threads, and the history that its boards tell.
ghost use Rattle.std.specs.Prelude.{◌≡◌, All, IfOk, OnOk, [], length};
ghost use Rattle.arrivals.specs.Amounts.{AreArrivals, arriving_of};
ghost use Rattle.link_boards.specs.Passes.{AreAllPasses, calls_in};
ghost use Rattle.delay_report.specs.Reports.{outcome_records, records_text, report_text, steps_records};
ghost use Rattle.histories.specs.Histories.{IsLawful};
ghost use Rattle.runs.specs.Complete.{IsComplete};
ghost use Rattle.node_rounds.specs.Calls.{HaveCallsLeft, IsRunOfCalls, MergeToLawful};
ghost use Rattle.net_threads.specs.Ends.{AreEndsOf};
ghost use Rattle.snap_boards.specs.Boards.{shared_of};
ghost use Rattle.network_jobs.specs.{Headline.ToldHeadline, Merged.HaveLawfulMerge, Merged.IsRunOfMerge, Merged.IsTextOfMerge};

use arrivals::Arrivals;
use board_model::{BoardLog, Gate};
use delay_report::{join_report, law_of_reports, render_outcome, render_steps};
use histories::merge;
use net_threads::{open_boards, run_rounds_snap};
use pruned_dp::BoundPlanner;
use road_net::{Network, law_of_network};
use runs::{RunRecord, law_of_runs};
use snap_boards::{SnapBoards, SnapPass};
use std::alloc::{AllocError, Global};
use std::sync::Wait;
use std::thread::{Threads, join};

/// A run, and the logs of the boards that tell its history.
#[derive(Drop)]
struct LoggedRun {
    run: RunRecord,
    logs: Vec<BoardLog>,
}

/// The run of a network in threads, by new passes, one for each node, and the passes after it.
fn run_with_passes<R: Threads + Wait + Sync, G: Gate + Sync>(
    rt: &R,
    alloc: Global,
    net: &Network,
    arrivals: &Arrivals,
    boards: &SnapBoards,
    mut passes: Vec<SnapPass>,
    gate: &G,
) -> (Result<RunRecord, AllocError>, Vec<SnapPass>)
    requires arrivals { AreArrivals net.now arrivals.now }
    requires links { boards.now.links ≡ length net.now.link_names }
    requires ends { AreEndsOf net.now boards.now.ends }
    requires all { AreAllPasses (shared_of boards.now) passes.items }
    requires nodes { length passes.items ≡ length net.now.node_names }
    requires fresh { All (λ p. p.calls ≡ []) passes.items }
    requires left { HaveCallsLeft net.now passes.items }
    ensures passes { AreAllPasses (shared_of boards.now) result.1.items }
    ensures lawful { OnOk result.0 (MergeToLawful net.now (calls_in result.1.items)) }
    ensures run { IfOk result.0 (IsRunOfCalls net.now (arriving_of arrivals.now) (calls_in result.1.items)) }
{
    let Ok(planners) = BoundPlanner::many(alloc, net.nodes() as usize) else {
        return (Err(AllocError), passes);
    };
    let run = run_rounds_snap(
        rt,
        alloc,
        net,
        arrivals,
        planners,
        boards,
        passes.as_mut_slice(),
        gate,
    );
    (run, passes)
}

/// The run of a network in threads, each node with a planner and a pass of its own, and the logs of the boards. The boards are closed
/// whether the run succeeds or not.
fn play<R: Threads + Wait + Sync, G: Gate + Sync>(
    rt: &R,
    alloc: Global,
    net: &Network,
    arrivals: &Arrivals,
    gate: &G,
) -> Result<LoggedRun, AllocError>
    requires { AreArrivals net.now arrivals.now }
    ensures { IfOk result (λ logged. IsRunOfMerge net.now (arriving_of arrivals.now) logged.logs.items logged.run) }
{
    let (boards, passes) = open_boards(rt, alloc, net)?;
    let (run, passes) = run_with_passes(rt, alloc, net, arrivals, &boards, passes, gate);
    let logs = boards.close(rt, alloc, passes)?;
    let run = run?;
    Ok(LoggedRun { run, logs })
}

/// The outcome of a run, written out. The run is dropped here: it has many parts, and dropping them takes as long.
fn outcome_of(alloc: Global, net: &Network, run: RunRecord) -> Result<Vec<u8>, AllocError>
    requires { IsComplete net.now run }
    ensures { IfOk result (λ text. text.items ≡ records_text (outcome_records net.now run)) }
{
    render_outcome(alloc, net, &run, Vec::new(alloc))
}

/// The steps of the history that logs tell, written out while another thread drops the logs.
fn steps_of<R: Threads>(
    rt: &R,
    alloc: Global,
    net: &Network,
    logs: Vec<BoardLog>,
) -> Result<Vec<u8>, AllocError>
    requires { HaveLawfulMerge net.now logs.items }
    ensures { IfOk result (λ text. IsTextOfMerge logs.items
        (λ history. records_text (steps_records net.now history)) text.items) }
{
    let history = merge(alloc, &logs)?;
    let history = &history;
    let ((), steps) = join(
        rt,
        move || {
            let _logs = logs;
        },
        || -> Result<Vec<u8>, AllocError>
            requires { IsLawful net.now history.now }
            ensures { IfOk result (λ text. text.items ≡ records_text (steps_records net.entry.now history.entry.now)) }
        { render_steps(alloc, net, history) },
    );
    steps
}

/// The report of a run with its logs. The logs are merged and the steps written out while another thread writes out the outcome of the
/// run, and what is no longer needed is dropped beside.
fn write_report<R: Threads>(
    rt: &R,
    alloc: Global,
    net: &Network,
    logged: LoggedRun,
) -> Result<Vec<u8>, AllocError>
    requires lawful { HaveLawfulMerge net.now logged.logs.items }
    requires whole { IsComplete net.now logged.run }
    ensures { IfOk result (λ text. IsTextOfMerge logged.logs.items (report_text net.now logged.run) text.items) }
{
    let LoggedRun { run, logs } = logged;
    let (outcome, steps) = join(
        rt,
        move || -> Result<Vec<u8>, AllocError>
            requires { IsComplete net.now run }
            ensures { IfOk result (λ text. text.items ≡ records_text (outcome_records net.entry.now run)) }
        { outcome_of(alloc, net, run) },
        move || -> Result<Vec<u8>, AllocError>
            requires { HaveLawfulMerge net.now logs.items }
            ensures { IfOk result (λ text. IsTextOfMerge logs.items
                (λ history. records_text (steps_records net.entry.now history)) text.items) }
        { steps_of(rt, alloc, net, logs) },
    );
    let outcome = outcome?;
    let steps = steps?;
    join_report(net, steps, outcome.as_slice())
}

/// The report of the run of a network in threads, and of the history that its boards tell.
pub(crate) fn report<R: Threads + Wait + Sync, G: Gate + Sync>(
    rt: &R,
    alloc: Global,
    net: &Network,
    arrivals: &Arrivals,
    gate: &G,
) -> Result<Vec<u8>, AllocError>
    requires { AreArrivals net.now arrivals.now }
    ensures { IfOk result (λ text. ToldHeadline net.now (arriving_of arrivals.now) text.items) }
{
    law_of_network(net);
    let logged = play(rt, alloc, net, arrivals, gate)?;
    law_of_runs(net);
    law_of_reports(net);
    write_report(rt, alloc, net, logged)
}
