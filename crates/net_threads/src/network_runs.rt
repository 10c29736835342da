//! The run of a network in threads.
ghost use Rattle.std.specs.Prelude.{◌≡◌, ℕ, ◌*◌, ◌<◌, ◌≤◌, [], All, IfOk, OnOk, length, vec_capacity, vec_len};
ghost use Rattle.control_flow.specs.declared.greens.Sign.{Sign};
ghost use Rattle.arrivals.specs.Amounts.{AreArrivals, arriving_of};
ghost use Rattle.link_boards.specs.Passes.{AreAllPasses, calls_in};
ghost use Rattle.net_simulator.specs.Worlds.{Stands};
ghost use Rattle.node_rounds.specs.Calls.{AreStepsOf, HaveCallsLeft, IsRunOfCalls, MergeToLawful};
ghost use Rattle.runs.specs.Resting.{AreNew};
ghost use Rattle.snap_boards.specs.Boards.{shared_of};
ghost use Rattle.net_threads.specs.{Ends.AreEndsOf, Tasks.AreTasksOf, Tasks.actors_in};

use crate::all_nodes::NodeTasks;
use crate::rounds::Rounds;
use crate::set_up::node_tasks;
use arrivals::Arrivals;
use board_model::Gate;
use histories::law_of_merged_calls;
use link_boards::{LinkSlot, idle_passes};
use net_simulator::World;
use plan_boards::{Boards, Pass};
use road_net::Network;
use runs::{Actors, RunRecord, actors_of, empty_plans, empty_record, law_of_runs, record_of};
use schedule_meaning::Planner;
use snap_boards::{SnapBoards, SnapPass};
use std::alloc::{AllocError, Global};
use std::sync::Wait;
use std::thread::{Threads, available_parallelism};
use task_pool::TaskPool;

/// A run has no more threads.
const MOST_THREADS: usize = 64;

/// How many threads do the tasks: one for each processor, at most 64, and no more than there are nodes. One where the machine does not
/// say how many processors it has.
fn threads_for<R: Threads>(rt: &R, nodes: usize) -> usize
    ensures { (result ≤ 64) × (result ≤ nodes) }
{
    let processors = match available_parallelism(rt) {
        Ok(processors) => processors.get(),
        Err(_) => 1,
    };
    processors.min(MOST_THREADS).min(nodes)
}

/// The rounds of a network before the first, whose nodes have passes of other boards for now.
///
/// `Err`: out of memory.
fn rounds_of<'a, P: Planner + Drop, S: LinkSlot, G: Gate>(
    alloc: Global,
    net: &'a Network,
    arrivals: &'a Arrivals,
    planners: Vec<P>,
    boards: &'a link_boards::Boards<S>,
    gate: &'a G,
) -> Result<Rounds<'a, P, S, G>, AllocError>
    requires planners { vec_len planners ≡ length net.now.node_names }
    ensures refs { IfOk result (λ r. (r.net.now ≡ net.now) × (r.arrivals.now ≡ arrivals.now)
        × (r.boards.now ≡ boards.now)) }
    ensures new { IfOk result (λ r. AreNew net.now (length net.now.node_names) (actors_in r.nodes.all.items)) }
    ensures second { IfOk result (λ r. r.world.second ≡ 0) }
    ensures stands { (arriving : ℕ → ℕ → ℕ) (shown : ℕ → ℕ → Sign)
        → IfOk result (λ r. Stands net.now arriving shown r.world) }
    ensures of { IfOk result (λ r. AreTasksOf net.now boards.now r.nodes.all.items) }
    ensures plans { IfOk result (λ r. r.plans.items ≡ []) }
    ensures capacity { IfOk result (λ r.
        net.now.run.rounds * length net.now.node_names ≤ vec_capacity r.plans) }
{
    let Actors { all: actors } = actors_of(alloc, net)?;
    let world = World::new(alloc, net)?;
    let plans = empty_plans(alloc, net)?;
    let passes = idle_passes(alloc, net.nodes())?;
    let all = node_tasks(alloc, net, boards, gate, actors, planners, passes)?;
    Ok(Rounds {
        alloc,
        net,
        arrivals,
        boards,
        world,
        nodes: NodeTasks { all, boards, gate },
        plans,
    })
}

/// The run of a network in threads, at boards of any form: `run_rounds` has all that is asked and promised.
fn run_in_threads<
    P: Planner + Send + Drop,
    S: LinkSlot + Send,
    R: Threads + Wait + Sync,
    G: Gate + Sync,
>(
    rt: &R,
    alloc: Global,
    net: &Network,
    arrivals: &Arrivals,
    planners: Vec<P>,
    boards: &link_boards::Boards<S>,
    passes: &mut [link_boards::Pass<S>],
    gate: &G,
) -> Result<RunRecord, AllocError>
    requires arrivals { AreArrivals net.now arrivals.now }
    requires planners { length planners.items ≡ length net.now.node_names }
    requires links { boards.now.links ≡ length net.now.link_names }
    requires passes { AreAllPasses boards.now passes.old }
    requires nodes { length passes.old ≡ length net.now.node_names }
    requires fresh { All (λ p. p.calls ≡ []) passes.old }
    requires left { HaveCallsLeft net.now passes.old }
    ensures passes { AreAllPasses boards.now passes.new }
    ensures steps { IfOk result (λ run. (node : ℕ) → AreStepsOf net.now run node (calls_in passes.new node)) }
    ensures lawful { OnOk result (MergeToLawful net.now (calls_in passes.new)) }
    ensures run { IfOk result (IsRunOfCalls net.now (arriving_of arrivals.now) (calls_in passes.new)) }
{
    // `nodes` is called for its clause `network`.
    let nodes = net.nodes() as usize;
    law_of_merged_calls(net);
    law_of_runs(net);
    let record = empty_record(alloc, net)?;
    let list = Vec::with_capacity(alloc, nodes)?;
    let mut rounds = rounds_of(alloc, net, arrivals, planners, boards, gate)?;
    let pool = TaskPool::new(alloc, nodes, threads_for(rt, nodes))?;
    rounds.nodes.trade(passes);
    let (mut rounds, ended) = pool.run(rt, rounds);
    rounds.nodes.trade(passes);
    ended?;
    let Rounds {
        world,
        nodes,
        plans,
        ..
    } = rounds;
    let actors = Actors {
        all: nodes.into_actors(list),
    };
    Ok(record_of(net, plans, actors, &world, record))
}

/// The run of a network in threads. In each round every node's part is a task of its own: it reads the boards of the links on which it
/// hears other nodes, plans with its own planner, and publishes on the boards of those on which it tells them. Whichever thread is free
/// takes the next task, and there are as many threads as processors, at most 64; so where there are two, any two nodes may be at it at
/// once, in whatever order the machine gives. All tasks of a round are done before the passes meet and the world moves. Each board step is a call of
/// the node's own pass, and `gate.before` is called before it.
///
/// The arrivals are those of the network, and there is one planner for each node. The boards have as many links as the network; the passes
/// are all passes of these boards, by number, one for each node, and none has made a call. Each has at least as many calls left as its node
/// has board steps in all rounds.
///
/// The calls of each pass are its node's board steps, round by round, and each reading has the version that the plan of its round
/// names. The merge of the logs of these calls is lawful, and where the logs agree with the calls, as those of `close` do, the answer
/// is the run of that merge. `Err`: out of memory. Then too the passes are still all passes of these boards, by
/// number, with the calls that were made. It waits for the boards and the threads.
///
/// docs/DESIGN.md, "Rounds in threads".
pub fn run_rounds<P: Planner + Send + Drop, R: Threads + Wait + Sync, G: Gate + Sync>(
    rt: &R,
    alloc: Global,
    net: &Network,
    arrivals: &Arrivals,
    planners: Vec<P>,
    boards: &Boards,
    passes: &mut [Pass],
    gate: &G,
) -> Result<RunRecord, AllocError>
    requires arrivals { AreArrivals net.now arrivals.now }
    requires planners { length planners.items ≡ length net.now.node_names }
    requires links { boards.now.links ≡ length net.now.link_names }
    requires passes { AreAllPasses boards.now passes.old }
    requires nodes { length passes.old ≡ length net.now.node_names }
    requires fresh { All (λ p. p.calls ≡ []) passes.old }
    requires left { HaveCallsLeft net.now passes.old }
    ensures passes { AreAllPasses boards.now passes.new }
    ensures steps { IfOk result (λ run. (node : ℕ) → AreStepsOf net.now run node (calls_in passes.new node)) }
    ensures lawful { OnOk result (MergeToLawful net.now (calls_in passes.new)) }
    ensures run { IfOk result (IsRunOfCalls net.now (arriving_of arrivals.now) (calls_in passes.new)) }
{
    run_in_threads(
        rt,
        alloc,
        net,
        arrivals,
        planners,
        boards.shared(),
        passes,
        gate,
    )
}

/// The run of a network in threads as `run_rounds` makes it, at boards whose forecasts are read beside the writer. Besides what is asked
/// there, each link that comes from a node and ends at a node has these two as its writer and its reader, and every other link has no
/// ends (`link_ends`).
///
/// What is promised is the same. `Err`: out of memory. Then too the passes are still all passes of these boards, by number, with the calls
/// that were made, so that the boards can be closed. It waits for the boards and the threads.
///
/// docs/DESIGN.md, "Rounds in threads".
pub fn run_rounds_snap<P: Planner + Send + Drop, R: Threads + Wait + Sync, G: Gate + Sync>(
    rt: &R,
    alloc: Global,
    net: &Network,
    arrivals: &Arrivals,
    planners: Vec<P>,
    boards: &SnapBoards,
    passes: &mut [SnapPass],
    gate: &G,
) -> Result<RunRecord, AllocError>
    requires arrivals { AreArrivals net.now arrivals.now }
    requires planners { length planners.items ≡ length net.now.node_names }
    requires links { boards.now.links ≡ length net.now.link_names }
    requires ends { AreEndsOf net.now boards.now.ends }
    requires passes { AreAllPasses (shared_of boards.now) passes.old }
    requires nodes { length passes.old ≡ length net.now.node_names }
    requires fresh { All (λ p. p.calls ≡ []) passes.old }
    requires left { HaveCallsLeft net.now passes.old }
    ensures passes { AreAllPasses (shared_of boards.now) passes.new }
    ensures steps { IfOk result (λ run. (node : ℕ) → AreStepsOf net.now run node (calls_in passes.new node)) }
    ensures lawful { OnOk result (MergeToLawful net.now (calls_in passes.new)) }
    ensures run { IfOk result (IsRunOfCalls net.now (arriving_of arrivals.now) (calls_in passes.new)) }
{
    run_in_threads(
        rt,
        alloc,
        net,
        arrivals,
        planners,
        boards.shared(),
        passes,
        gate,
    )
}
