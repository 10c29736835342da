//! The actor of a node.
ghost use Rattle.std.specs.Prelude.{◌≡◌, []};

use crate::planning::{Kept, RoundPlan, keep_plan, plan_round};
use crate::reads::{heard_links, next_read, next_told};
use crate::records::{PlanRecord, Want};
use board_model::{Forecast, Heard};
use clusters::Window;
use control_flow::greens::Timeline;
use control_flow::rotation;
use foundation::items::Items;
use foundation::threads::CrossesThreads;
use outflow::forecast;
use road_net::{LinkSense, Network, Sensed};
use schedule_meaning::Planner;
use std::alloc::{AllocError, Global};
use std::marker::Model;
use std::mem::replace;
use switch_rules::{Head, Served};

/// A node that runs its rounds: it senses, reads what its neighbours tell, plans, and tells them what it will send.
///
/// docs/RULES.md, "A node's round".
#[derive(Drop)]
pub struct Actor {
    node: u32,
    line: Timeline,
    records: Vec<PlanRecord>,
    want: Want,
    round: u32,
    /// The links that it reads in its round.
    reads: Vec<u32>,
    sensed: Sensed,
    /// The memory of what it sensed in an earlier round.
    spare: Vec<LinkSense>,
    heard: Vec<Heard>,
    window: Window,
    phases: Items<u8>,
    served: Items<Served>,
}

impl Model for Actor {
    ghost use Rattle.std.specs.Prelude.{drop, length};
    ghost use Rattle.intersection_actor.specs.Acting.{Acting};

    ghost Value = { Acting };

    ghost view = { λ a. record {
      node = a.node;
      line = a.line;
      records = a.records.items;
      want = a.want;
      round = a.round;
      left = drop (length a.heard.items) a.reads.items;
      sensed = a.sensed;
      heard = a.heard.items;
      window = a.window;
      phases = a.phases;
      served = a.served;
    } };
}

impl CrossesThreads for Actor {}

impl Actor {
    ghost use Rattle.std.specs.Prelude.{◌≡◌, ℕ, ◌+◌, ◌*◌, ◌<◌, ◌≤◌, ◌++◌, IfOk, OnErr, OnOk, length, vec_capacity, vec_len};
    ghost use Rattle.control_flow.specs.Greens.{BeginBy, IsLawful, end_of};
    ghost use Rattle.net_parts.specs.{Numbers.Net, Outline.plan_at};
    ghost use Rattle.road_net.specs.Senses.{IsSensedOf};
    ghost use Rattle.intersection_actor.specs.{Acting.IsPublish, Acting.at_rest, Acting.begun, Acting.resting, Acting.tells_from, Acting.told_at, Acting.wanting, Acting.with_heard, Acting.without_records, Rounds.IsCommitted, Rounds.IsNew};
    ghost use Rattle.intersection_actor.specs.{Rounds.IsOf, Rounds.KeepsPast, Steps.IsPlanned};
    ghost use Rattle.clusters.specs.Windows.{counts_of};
    ghost use Rattle.outflow.specs.Outflow.{departures, told_forecast};

    /// The actor of a node before its first round: its signal's ring turns from second 0, and nothing is planned.
    ///
    /// `Err`: out of memory.
    ///
    /// docs/RULES.md, "A node's round".
    pub fn new(alloc: Global, net: &Network, node: u32) -> Result<Actor, AllocError>
        requires { node < length net.now.node_names }
        ensures new { IfOk result (IsNew net.now node) }
        ensures of { IfOk result (IsOf net.now) }
    {
        let head = Head {
            phase: 0,
            since: 0,
            at: 0,
            fresh: true,
        };
        let line = rotation(alloc, net.plan(node), &head, 0)?;
        Ok(Actor::standing(alloc, node, line))
    }

    /// The actor of a node between two rounds whose signal has this timeline: nothing is planned. It takes no memory.
    ///
    /// It is of each network with the node for whose plan the timeline is lawful, where every row begins at or below 100,000.
    ///
    /// docs/RULES.md, "A node's round".
    pub fn standing(alloc: Global, node: u32, line: Timeline) -> Actor
        ensures rests { result ≡ at_rest node line }
        ensures of { (net : Net) → node < length net.node_names → IsLawful (plan_at net node) line → BeginBy 100000 line
            → IsOf net result }
    {
        Actor {
            node,
            line,
            records: Vec::new(alloc),
            want: Want::Done,
            round: 0,
            reads: Vec::new(alloc),
            sensed: nothing_sensed(alloc),
            spare: Vec::new(alloc),
            heard: Vec::new(alloc),
            window: empty_window(alloc),
            phases: Items::from_vec(Vec::new(alloc)),
            served: Items::from_vec(Vec::new(alloc)),
        }
    }

    /// What it wants to do next.
    ///
    /// docs/RULES.md, "A node's round".
    pub fn want(&self) -> Want
        ensures { result ≡ self.now.want }
    {
        self.want
    }

    /// The timeline of its signal.
    ///
    /// docs/RULES.md, "A node's round".
    pub fn timeline(&self) -> &Timeline
        ensures { result.now ≡ self.now.line }
    {
        &self.line
    }

    /// What it has planned, round by round, since its records were last moved.
    ///
    /// docs/RULES.md, "Plan record".
    pub fn records(&self) -> &[PlanRecord]
        ensures { result.now ≡ self.now.records }
    {
        self.records.as_slice()
    }

    /// Moves its plan records to the end of these plans, so that one list can have those of all rounds and nodes. The actor keeps
    /// none.
    ///
    /// The list has capacity for them, so the call cannot fail.
    ///
    /// docs/RULES.md, "A node's round".
    pub fn move_records(&mut self, plans: &mut Vec<PlanRecord>)
        requires { vec_len plans.old + length self.old.records ≤ vec_capacity plans.old }
        ensures plans { plans.new.items ≡ plans.old.items ++ self.old.records }
        ensures capacity { vec_capacity plans.old ≤ vec_capacity plans.new }
        ensures actor { self.new ≡ without_records self.old }
        ensures of { (net : Net) → IsOf net self.old → IsOf net self.new }
    {
        let Ok(()) = plans.append(&mut self.records) else {
            unreachable!()
        };
    }

    /// Its timeline, and what it has planned since its records were last moved.
    ///
    /// docs/RULES.md, "A node's round".
    pub fn into_parts(self) -> (Timeline, Vec<PlanRecord>)
        ensures line { result.0 ≡ self.line }
        ensures records { result.1.items ≡ self.records }
    {
        let Actor { line, records, .. } = self;
        (line, records)
    }

    /// A list whose memory what it senses next may take: that of an earlier round. What is in it does not matter.
    ///
    /// docs/RULES.md, "A node's round".
    pub fn take_spare(&mut self, alloc: Global) -> Vec<LinkSense>
        ensures { self.new ≡ self.old }
    {
        replace(&mut self.spare, Vec::new(alloc))
    }

    /// Begins a round, in whose first second the node senses this: it wants to read the first link on which it hears another
    /// node, or to plan where it hears none.
    ///
    /// It has done the round before, the round begins by second 86,400, and some row of its timeline ends after the round's first
    /// second. `Err`: out of memory; all stays as it was.
    ///
    /// docs/RULES.md, "A node's round".
    pub fn begin(
        &mut self,
        alloc: Global,
        net: &Network,
        round: u32,
        sensed: Sensed,
    ) -> Result<(), AllocError>
        requires of { IsOf net.now self.old }
        requires want { self.old.want ≡ Want.Done }
        requires sensed { IsSensedOf net.now self.old.node sensed }
        requires now { sensed.now ≡ round * net.now.run.step }
        requires ahead { sensed.now < end_of self.old.line }
        ensures ok { OnOk result (self.new ≡ begun net.now round sensed self.old) }
        ensures refused { OnErr result (self.new ≡ self.old) }
        ensures of { IsOf net.now self.new }
    {
        let reads = heard_links(alloc, net, self.node)?;
        self.want = next_read(reads.as_slice(), 0);
        self.round = round;
        self.reads = reads;
        let Sensed { links, .. } = replace(&mut self.sensed, sensed);
        self.spare = links.into_vec();
        self.heard.clear();
        Ok(())
    }

    /// Takes what was read of the link that it wants to read: it wants the next one, or to plan once it has read all.
    ///
    /// `Err`: out of memory; all stays as it was.
    ///
    /// docs/RULES.md, "A node's round".
    pub fn take(&mut self, heard: Heard) -> Result<(), AllocError>
        requires { self.old.want ≡ Want.Read heard.link }
        ensures ok { OnOk result (self.new ≡ with_heard heard self.old) }
        ensures refused { OnErr result (self.new ≡ self.old) }
        ensures of { (net : Net) → IsOf net self.old → IsOf net self.new }
    {
        self.heard.push(heard)?;
        self.want = next_read(self.reads.as_slice(), self.heard.len());
        Ok(())
    }

    /// Plans, once it has read all: from the head that its timeline has when the round begins, and the window of the platoons
    /// that it expects, it takes the planner's best answer. It adds the plan record, which names the versions that it heard, in
    /// link order, and splices the timeline of the answer, for as long as the network looks ahead. It then wants to publish on
    /// the first link on which it tells another node.
    ///
    /// The timeline stays lawful, what is green before the round stays, every row begins at or below 100,000, and some row ends
    /// after the begin of the next round. `Err`: out of memory; all stays as it was.
    ///
    /// docs/RULES.md, "A node's round".
    pub fn commit<P: Planner>(
        &mut self,
        alloc: Global,
        net: &Network,
        planner: &mut P,
    ) -> Result<(), AllocError>
        requires of { IsOf net.now self.old }
        requires want { self.old.want ≡ Want.Commit }
        ensures ok { OnOk result (IsCommitted net.now self.old self.new) }
        ensures tells { OnOk result (self.new.want ≡ told_at net.now self.old.node 0) }
        ensures kept { OnOk result (KeepsPast net.now self.old self.new) }
        ensures refused { OnErr result (self.new ≡ self.old) }
        ensures of { IsOf net.now self.new }
    {
        let plan = plan_round(
            alloc,
            net,
            self.node,
            &self.line,
            &self.sensed,
            self.heard.as_slice(),
            planner,
        )?;
        self.settle(net, plan)
    }

    /// Keeps what was planned, and splices its timeline.
    fn settle(&mut self, net: &Network, plan: RoundPlan) -> Result<(), AllocError>
        requires of { IsOf net.now self.old }
        requires want { self.old.want ≡ Want.Commit }
        requires planned { IsPlanned net.now self.old.node self.old.line self.old.sensed self.old.heard plan }
        ensures ok { OnOk result (IsCommitted net.now self.old self.new) }
        ensures tells { OnOk result (self.new.want ≡ told_at net.now self.old.node 0) }
        ensures kept { OnOk result (KeepsPast net.now self.old self.new) }
        ensures refused { OnErr result (self.new ≡ self.old) }
        ensures of { IsOf net.now self.new }
    {
        // Called for its clause `ring`, and not for the count.
        let _ = net.plan(self.node).count();
        let want = next_told(net, self.node, 0);
        let kept = keep_plan(
            &mut self.records,
            &mut self.line,
            self.node,
            self.round,
            plan,
        )?;
        let Kept {
            window,
            phases,
            served,
        } = kept;
        self.want = want;
        self.window = window;
        self.phases = phases;
        self.served = served;
        Ok(())
    }

    /// What it tells on the link on which it wants to publish: when the vehicles that it has planned to serve will come to that
    /// link's end.
    ///
    /// `Err`: out of memory.
    ///
    /// docs/RULES.md, "A node's round".
    pub fn outgoing(&self, alloc: Global, net: &Network) -> Result<Forecast, AllocError>
        requires of { IsOf net.now self.now }
        requires want { IsPublish self.now.want }
        ensures value { (link : ℕ) → self.now.want ≡ Want.Publish link
            → IfOk result (λ rows. rows ≡ told_forecast net.now link self.now.sensed.now
            (departures self.now.window.lists (counts_of self.now.window.lists) self.now.phases self.now.served)) }
    {
        let Want::Publish(link) = self.want else {
            unreachable!()
        };
        forecast(
            alloc,
            net,
            self.node,
            &self.window,
            self.phases.as_slice(),
            self.served.as_slice(),
            link,
            self.sensed.now,
        )
    }

    /// It has published on the link on which it wanted to: it wants to publish on the next one, or has done its round. It takes
    /// no memory.
    ///
    /// docs/RULES.md, "A node's round".
    pub fn sent(&mut self, net: &Network)
        requires of { IsOf net.now self.old }
        requires want { IsPublish self.old.want }
        ensures tells { (place : ℕ) → self.old.want ≡ told_at net.now self.old.node place
            → self.new.want ≡ told_at net.now self.old.node (place + 1) }
        ensures next { (link : ℕ) → self.old.want ≡ Want.Publish link
            → self.new ≡ wanting (tells_from net.now self.old.node (link + 1)) self.old }
        ensures of { IsOf net.now self.new }
    {
        let Want::Publish(link) = self.want else {
            unreachable!()
        };
        self.want = next_told(net, self.node, link as u64 + 1);
    }

    /// It has done its round: of what it sensed, heard and planned in it, it keeps its timeline and the plan record alone. It takes no
    /// memory.
    ///
    /// docs/RULES.md, "A node's round".
    pub fn rest(&mut self, alloc: Global)
        requires { self.old.want ≡ Want.Done }
        ensures rests { self.new ≡ resting self.old }
        ensures of { (net : Net) → IsOf net self.old → IsOf net self.new }
    {
        self.reads.clear();
        let Sensed { links, .. } = replace(&mut self.sensed, nothing_sensed(alloc));
        self.spare = links.into_vec();
        self.heard.clear();
        self.window = empty_window(alloc);
        self.phases = Items::from_vec(Vec::new(alloc));
        self.served = Items::from_vec(Vec::new(alloc));
    }
}

/// What a node senses that has no entry link.
fn nothing_sensed(alloc: Global) -> Sensed
    ensures { result ≡ record { now = 0; links = [] } }
{
    Sensed {
        now: 0,
        links: Items::from_vec(Vec::new(alloc)),
    }
}

/// The window of no platoons.
fn empty_window(alloc: Global) -> Window
    ensures { result ≡ record { lists = []; waiting = 0 } }
{
    Window {
        lists: Items::from_vec(Vec::new(alloc)),
        waiting: 0,
    }
}
