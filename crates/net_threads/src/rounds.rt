//! The rounds of a network.
ghost use Rattle.std.specs.Prelude.{◌≡◌};

use crate::all_nodes::NodeTasks;
use crate::lights::move_world;
use crate::node_tasks::NodeTask;
use arrivals::Arrivals;
use board_model::Gate;
use intersection_actor::PlanRecord;
use link_boards::{Boards, LinkSlot};
use net_simulator::World;
use road_net::Network;
use schedule_meaning::Planner;
use std::alloc::{AllocError, Global};
use std::sync::Wait;
use std::thread::Threads;
use task_pool::{PoolJob, TaskRunner};

/// The rounds of a network: its world, the tasks of its nodes, and the plans of the rounds that are done.
#[derive(Drop)]
pub struct Rounds<'a, P, S: LinkSlot, G> {
    pub(crate) alloc: Global,
    pub(crate) net: &'a Network,
    pub(crate) arrivals: &'a Arrivals,
    pub(crate) boards: &'a Boards<S>,
    pub(crate) world: World,
    pub(crate) nodes: NodeTasks<'a, P, S, G>,
    pub(crate) plans: Vec<PlanRecord>,
}

impl<'a, P: Planner + Drop, S: LinkSlot, G: Gate> Rounds<'a, P, S, G> {
    ghost use Rattle.std.specs.Prelude.{◌≡◌, ◌+◌, ◌<◌, OnOk, vec_len};
    ghost use Rattle.net_threads.specs.Rounds.{AreAt, AreOf};

    /// One round: all nodes play it, the passes meet, the world moves, and what the nodes have planned goes to the plans of the run.
    ///
    /// `Err`: out of memory.
    fn play_round<R: Threads + Wait + Sync>(
        &mut self,
        rt: &R,
        runner: &mut TaskRunner<'_, NodeTask<'a, P, S, G>>,
        round: u32,
    ) -> Result<(), AllocError>
        requires at { AreAt round self.old }
        requires round { round < self.old.net.now.run.rounds }
        requires slots { runner.old ≡ vec_len self.old.nodes.all }
        ensures same { AreOf self.old self.new }
        ensures slots { (runner.new ≡ runner.old) × (vec_len self.new.nodes.all ≡ vec_len self.old.nodes.all) }
        ensures at { OnOk result (AreAt (round + 1) self.new) }
    {
        let net = self.net;
        let boards = self.boards;
        let arrivals = self.arrivals;
        let step = net.run().step;
        self.nodes.play(rt, self.alloc, &self.world, round, runner)?;
        self.nodes.meet(boards);
        move_world(&mut self.world, net, &self.nodes, arrivals, step);
        self.nodes.move_records(&mut self.plans);
        Ok(())
    }

    /// All rounds.
    ///
    /// `Err`: out of memory.
    fn play_rounds<R: Threads + Wait + Sync>(
        &mut self,
        rt: &R,
        runner: &mut TaskRunner<'_, NodeTask<'a, P, S, G>>,
    ) -> Result<(), AllocError>
        requires at { AreAt 0 self.old }
        requires slots { runner.old ≡ vec_len self.old.nodes.all }
        ensures same { AreOf self.old self.new }
        ensures slots { runner.new ≡ runner.old }
        ensures at { OnOk result (AreAt self.old.net.now.run.rounds self.new) }
    {
        let net = self.net;
        for round in 0..net.run().rounds {
            self.play_round(rt, runner, round)?;
        }
        Ok(())
    }
}

impl<'a, P: Planner + Drop, S: LinkSlot, G: Gate> PoolJob<NodeTask<'a, P, S, G>>
    for Rounds<'a, P, S, G> {
    ghost use Rattle.net_threads.specs.Rounds.{CanRun, HaveRun};

    type Output = (Rounds<'a, P, S, G>, Result<(), AllocError>);

    ghost can_run = { CanRun };

    ghost gives = { HaveRun };

    fn run<R: Threads + Wait + Sync>(
        self,
        rt: &R,
        tasks: &mut TaskRunner<'_, NodeTask<'a, P, S, G>>,
    ) -> (Rounds<'a, P, S, G>, Result<(), AllocError>) {
        let mut rounds = self;
        let ended = rounds.play_rounds(rt, tasks);
        (rounds, ended)
    }
}
