//! The tasks of all nodes together.
ghost use Rattle.std.specs.Prelude.{◌≡◌};

use crate::node_tasks::{Node, NodeTask};
use board_model::Gate;
use intersection_actor::{Actor, PlanRecord};
use link_boards::{Boards, LinkSlot, Meeting, Pass};
use net_simulator::World;
use schedule_meaning::Planner;
use std::alloc::{AllocError, Global};
use std::mem::replace;
use std::sync::Wait;
use std::thread::Threads;
use task_pool::TaskRunner;

/// The tasks of all nodes, by node. The timelines of their actors are what the world moves by.
#[derive(Drop)]
pub struct NodeTasks<'a, P, S: LinkSlot, G> {
    pub(crate) all: Vec<NodeTask<'a, P, S, G>>,
    /// The boards on which they publish and read.
    pub(crate) boards: &'a Boards<S>,
    /// What is called before and within each board step.
    pub(crate) gate: &'a G,
}

impl<'a, P: Planner + Drop, S: LinkSlot, G: Gate> NodeTasks<'a, P, S, G> {
    ghost use Rattle.std.specs.Prelude.{◌≡◌, ◌+◌, ◌<◌, ◌≤◌, ◌++◌, [], All, IsOk, OnOk, length, map, vec_capacity, vec_len};
    ghost use Rattle.link_boards.specs.Passes.{highest, raised};
    ghost use Rattle.intersection_actor.specs.Acting.{without_records};
    ghost use Rattle.node_rounds.specs.Rounds.{AreSamePasses};
    ghost use Rattle.runs.specs.Ending.{records_in};
    ghost use Rattle.net_threads.specs.Tasks.{AreEach, CanBeginTask, CanPlayTask, HasBegunTask, HasEnded, HasPlayedRound, actors_in, pass_of, passes_in, settings_in};

    /// All nodes begin a round.
    ///
    /// `Err`: out of memory.
    fn begin(&mut self, world: &World, round: u32) -> Result<(), AllocError>
        requires can { All (CanBeginTask round world.now) self.old.all.items }
        ensures settings { settings_in self.new.all.items ≡ settings_in self.old.all.items }
        ensures same { AreSamePasses (passes_in self.old.all.items) (passes_in self.new.all.items) }
        ensures begun { OnOk result (AreEach (HasBegunTask round world.now) self.old.all.items self.new.all.items) }
    {
        for k in 0..self.all.len() {
            self.all[k].begin(world, round)?;
        }
        Ok(())
    }

    /// `Err` where one of the tasks ended so.
    fn outcome(&self) -> Result<(), AllocError>
        ensures { OnOk result (All (λ task. IsOk task.ended) self.now.all.items) }
    {
        for task in &self.all {
            if task.ended.is_err() {
                return Err(AllocError);
            }
        }
        Ok(())
    }

    /// All nodes go on with the round that they have begun, each where a thread is free.
    ///
    /// `Err`: out of memory.
    fn go_on<R: Threads + Wait + Sync>(
        &mut self,
        rt: &R,
        alloc: Global,
        runner: &mut TaskRunner<'_, NodeTask<'a, P, S, G>>,
    ) -> Result<(), AllocError>
        requires can { All CanPlayTask self.old.all.items }
        requires slots { runner.old ≡ vec_len self.old.all }
        ensures slots { runner.new ≡ runner.old }
        ensures settings { settings_in self.new.all.items ≡ settings_in self.old.all.items }
        ensures same { AreSamePasses (passes_in self.old.all.items) (passes_in self.new.all.items) }
        ensures played { OnOk result (AreEach HasEnded self.old.all.items self.new.all.items) }
    {
        let tasks = replace(&mut self.all, Vec::new(alloc));
        self.all = runner.run_all(rt, tasks);
        self.outcome()
    }

    /// All nodes play a round.
    ///
    /// `Err`: out of memory. Where that was in a node's task, the other nodes still play to their ends; where it was as the nodes begin,
    /// none plays on.
    pub(crate) fn play<R: Threads + Wait + Sync>(
        &mut self,
        rt: &R,
        alloc: Global,
        world: &World,
        round: u32,
        runner: &mut TaskRunner<'_, NodeTask<'a, P, S, G>>,
    ) -> Result<(), AllocError>
        requires can { All (CanBeginTask round world.now) self.old.all.items }
        requires links { All (λ task. task.setting.boards.now.links ≡ length task.setting.net.now.link_names)
            self.old.all.items }
        requires slots { runner.old ≡ vec_len self.old.all }
        ensures slots { runner.new ≡ runner.old }
        ensures settings { settings_in self.new.all.items ≡ settings_in self.old.all.items }
        ensures same { AreSamePasses (passes_in self.old.all.items) (passes_in self.new.all.items) }
        ensures played { OnOk result (AreEach (HasPlayedRound round world.now) self.old.all.items self.new.all.items) }
    {
        self.begin(world, round)?;
        self.go_on(rt, alloc, runner)
    }

    /// A meeting that knows all that the passes of these nodes know.
    fn meeting(&mut self, boards: &Boards<S>) -> Meeting<S>
        requires boards { All (λ p. p.boards ≡ boards.now.id) (passes_in self.old.all.items) }
        requires some { 0 < vec_len self.old.all }
        ensures actors { actors_in self.new.all.items ≡ actors_in self.old.all.items }
        ensures passes { passes_in self.new.all.items ≡ passes_in self.old.all.items }
        ensures settings { settings_in self.new.all.items ≡ settings_in self.old.all.items }
        ensures boards { result.boards ≡ boards.now.id }
        ensures known { result.known ≡ highest (passes_in self.old.all.items) }
    {
        let mut meeting = self.all[0].open_meeting(boards);
        for k in 0..self.all.len() {
            self.all[k].tell(boards, &mut meeting);
        }
        meeting
    }

    /// The passes of these nodes meet.
    pub(crate) fn meet(&mut self, boards: &Boards<S>)
        requires boards { All (λ p. p.boards ≡ boards.now.id) (passes_in self.old.all.items) }
        requires some { 0 < vec_len self.old.all }
        ensures actors { actors_in self.new.all.items ≡ actors_in self.old.all.items }
        ensures met { passes_in self.new.all.items
            ≡ map (raised (highest (passes_in self.old.all.items))) (passes_in self.old.all.items) }
        ensures settings { settings_in self.new.all.items ≡ settings_in self.old.all.items }
    {
        let mut meeting = self.meeting(boards);
        for k in 0..self.all.len() {
            self.all[k].hear(boards, &mut meeting);
        }
    }

    /// Moves what the nodes have planned to the end of the plans of a run, which has capacity for it, by node. The nodes keep none.
    pub(crate) fn move_records(&mut self, plans: &mut Vec<PlanRecord>)
        requires { vec_len plans.old + length (records_in (actors_in self.old.all.items)) ≤ vec_capacity plans.old }
        ensures passes { passes_in self.new.all.items ≡ passes_in self.old.all.items }
        ensures settings { settings_in self.new.all.items ≡ settings_in self.old.all.items }
        ensures actors { actors_in self.new.all.items ≡ map without_records (actors_in self.old.all.items) }
        ensures plans { plans.new.items ≡ plans.old.items ++ records_in (actors_in self.old.all.items) }
        ensures capacity { vec_capacity plans.old ≤ vec_capacity plans.new }
    {
        for k in 0..self.all.len() {
            self.all[k].move_records(plans);
        }
    }

    /// The nodes take these passes for their own, which take the places of these.
    pub(crate) fn trade(&mut self, passes: &mut [Pass<S>])
        requires { length passes.old ≡ vec_len self.old.all }
        ensures actors { actors_in self.new.all.items ≡ actors_in self.old.all.items }
        ensures passes { (passes_in self.new.all.items ≡ passes.old) × (passes.new ≡ passes_in self.old.all.items) }
        ensures settings { settings_in self.new.all.items ≡ settings_in self.old.all.items }
    {
        for k in 0..self.all.len() {
            self.all[k].trade(&mut passes[k]);
        }
    }

    /// The actors of these nodes, in a list that has the capacity for them.
    pub(crate) fn into_actors(self, list: Vec<Actor>) -> Vec<Actor>
        requires list { (list.items ≡ []) × (length self.all.items ≤ vec_capacity list) }
        ensures { result.items ≡ actors_in self.entry.all.items }
    {
        let mut actors = list;
        for task in self.all {
            let Node {
                actor,
                planner: _,
                pass: _,
            } = Box::into_inner(task.node);
            actors.push_reserved(actor);
        }
        actors
    }
}
