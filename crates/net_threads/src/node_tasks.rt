//! A node's round as a task.
ghost use Rattle.std.specs.Prelude.{◌≡◌, ◌+◌, ◌≤◌, ◌++◌, max, OnOk, length, vec_capacity, vec_len};
ghost use Rattle.link_boards.specs.Passes.{raised};
ghost use Rattle.intersection_actor.specs.Acting.{without_records};
ghost use Rattle.node_rounds.specs.Nodes.{CanGoOn, HasPlayedOn, IsSamePass};
ghost use Rattle.net_threads.specs.Tasks.{CanBeginTask, HasBegunTask, IsSameTask, actor_of, pass_of};

use board_model::Gate;
use intersection_actor::{Actor, PlanRecord};
use link_boards::{Boards, LinkSlot, Meeting, Pass};
use net_simulator::World;
use node_rounds::{RoundSetting, begin, play};
use schedule_meaning::Planner;
use std::alloc::AllocError;
use std::mem::swap;
use std::sync::Wait;
use std::thread::Threads;
use task_pool::Task;

/// A node, with what it plays by.
#[derive(Drop)]
pub struct Node<P, S: LinkSlot> {
    pub(crate) actor: Actor,
    pub(crate) planner: P,
    pub(crate) pass: Pass<S>,
}

/// A node's round, as a task: it has begun, and the node plays on where the task is done.
#[derive(Drop)]
pub struct NodeTask<'a, P, S: LinkSlot, G> {
    pub(crate) setting: RoundSetting<'a, S, G>,
    pub(crate) node: Box<Node<P, S>>,
    /// How it ended: `Err` where memory ran out.
    pub(crate) ended: Result<(), AllocError>,
}

impl<'a, P: Planner + Drop, S: LinkSlot, G: Gate> Task for NodeTask<'a, P, S, G> {
    ghost use Rattle.net_threads.specs.Tasks.{CanPlayTask, HasPlayedTask};

    ghost ready = { CanPlayTask };

    ghost done = { HasPlayedTask };

    fn run<R: Threads + Wait + Sync>(self, rt: &R) -> Self {
        let NodeTask {
            setting,
            mut node,
            ended: _,
        } = self;
        let ended = go_on(rt, &setting, &mut *node);
        NodeTask {
            setting,
            node,
            ended,
        }
    }
}

/// The node goes on with the round that it has begun.
///
/// `Err`: out of memory.
fn go_on<'a, P: Planner, S: LinkSlot, R: Threads + Wait + Sync, G: Gate>(
    rt: &R,
    setting: &RoundSetting<'a, S, G>,
    node: &mut Node<P, S>,
) -> Result<(), AllocError>
    requires links { setting.now.boards.now.links ≡ length setting.now.net.now.link_names }
    requires can { CanGoOn setting.now.net.now setting.now.round setting.now.boards.now node.old.actor node.old.pass }
    ensures played { OnOk result (HasPlayedOn setting.now.net.now setting.now.round setting.now.boards.now
        node.old.actor node.new.actor node.old.pass node.new.pass) }
    ensures same { IsSamePass node.old.pass node.new.pass }
{
    play(
        rt,
        setting,
        &mut node.actor,
        &mut node.planner,
        &mut node.pass,
    )
}

impl<'a, P: Planner + Drop, S: LinkSlot, G: Gate> NodeTask<'a, P, S, G> {
    /// The node begins a round: it senses the world.
    ///
    /// `Err`: out of memory.
    pub(crate) fn begin(&mut self, world: &World, round: u32) -> Result<(), AllocError>
        requires can { CanBeginTask round world.now self.old }
        ensures same { IsSameTask self.old self.new }
        ensures begun { OnOk result (HasBegunTask round world.now self.old self.new) }
    {
        self.setting.round = round;
        let node = &mut *self.node;
        begin(&self.setting, world, &mut node.actor, &node.pass)
    }

    /// A meeting that knows what the node's pass knows.
    pub(crate) fn open_meeting(&mut self, boards: &Boards<S>) -> Meeting<S>
        requires boards { (pass_of self.old).boards ≡ boards.now.id }
        ensures actor { actor_of self.new ≡ actor_of self.old }
        ensures pass { pass_of self.new ≡ pass_of self.old }
        ensures setting { self.new.setting ≡ self.old.setting }
        ensures meeting { (result.boards ≡ boards.now.id) × (result.known ≡ (pass_of self.old).known) }
    {
        boards.begin_meeting(&mut self.node.pass)
    }

    /// The node's pass tells a meeting what it knows.
    pub(crate) fn tell(&mut self, boards: &Boards<S>, meeting: &mut Meeting<S>)
        requires boards { (meeting.old.boards ≡ boards.now.id) × ((pass_of self.old).boards ≡ boards.now.id) }
        ensures actor { actor_of self.new ≡ actor_of self.old }
        ensures pass { pass_of self.new ≡ pass_of self.old }
        ensures setting { self.new.setting ≡ self.old.setting }
        ensures boards { meeting.new.boards ≡ meeting.old.boards }
        ensures known { meeting.new.known ≡ max meeting.old.known (pass_of self.old).known }
    {
        boards.collect(meeting, &mut self.node.pass);
    }

    /// The node's pass hears what a meeting knows.
    pub(crate) fn hear(&mut self, boards: &Boards<S>, meeting: &mut Meeting<S>)
        requires boards { (meeting.old.boards ≡ boards.now.id) × ((pass_of self.old).boards ≡ boards.now.id) }
        ensures actor { actor_of self.new ≡ actor_of self.old }
        ensures pass { pass_of self.new ≡ raised meeting.old.known (pass_of self.old) }
        ensures setting { self.new.setting ≡ self.old.setting }
        ensures meeting { meeting.new ≡ meeting.old }
    {
        boards.inform(meeting, &mut self.node.pass);
    }

    /// Moves what the node has planned to the end of these plans, which have capacity for it. The node keeps none.
    pub(crate) fn move_records(&mut self, plans: &mut Vec<PlanRecord>)
        requires { vec_len plans.old + length (actor_of self.old).records ≤ vec_capacity plans.old }
        ensures pass { pass_of self.new ≡ pass_of self.old }
        ensures setting { self.new.setting ≡ self.old.setting }
        ensures actor { actor_of self.new ≡ without_records (actor_of self.old) }
        ensures plans { plans.new.items ≡ plans.old.items ++ (actor_of self.old).records }
        ensures capacity { vec_capacity plans.old ≤ vec_capacity plans.new }
    {
        self.node.actor.move_records(plans);
    }

    /// The node takes this pass for its own, which takes its place.
    pub(crate) fn trade(&mut self, pass: &mut Pass<S>)
        ensures actor { actor_of self.new ≡ actor_of self.old }
        ensures pass { (pass_of self.new ≡ pass.old) × (pass.new ≡ pass_of self.old) }
        ensures setting { self.new.setting ≡ self.old.setting }
    {
        swap(&mut self.node.pass, pass);
    }
}
