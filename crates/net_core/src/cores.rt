//! A run under way.
use crate::faults::StepFault;
use crate::first_parts::parts_of;
use crate::keeping::{go_on, nothing_kept, open_round, play};
use crate::parts::{Kept, Parts};
use crate::stepping::is_done;
use arrivals::Arrivals;
use foundation::threads::CrossesThreads;
use intersection_actor::Want;
use road_net::{Network, law_of_network};
use runs::{EmptyRecord, RunRecord, empty_record, law_of_runs, record_of};
use schedule_meaning::Planner;
use std::alloc::{AllocError, Global};
use std::marker::Model;

/// A run under way: the nodes of a network do their board steps one after another, in any order, and each plans as soon as it has
/// read all. Contracts see the network, the arrivals, the nodes that have done steps, and whether the core is spent.
///
/// docs/DESIGN.md, "Core".
#[derive(Drop)]
pub struct Core<'a> {
    net: &'a Network,
    arrivals: &'a Arrivals,
    parts: Parts,
    kept: Kept,
    /// The lists for the timelines and the totals of the run.
    empty: EmptyRecord,
    /// Whether an earlier step ran out of memory.
    spent: bool,
}

impl<'a> Model for Core<'a> {
    ghost use Rattle.net_core.specs.Cores.{Course};

    ghost Value = { Course };

    ghost use Rattle.net_core.specs.States.{IsReady};

    ghost view = { λ core. record {
      net = core.net.now;
      arrivals = core.arrivals.now;
      steps = core.kept.history.items;
      spent = core.spent;
    } };

    ghost invariant = { λ core. IsReady core.net.now core.arrivals.now core.parts core.kept core.spent core.empty };
}

impl<'a> CrossesThreads for Core<'a> {}

impl<'a> Core<'a> {
    ghost use Rattle.std.specs.Prelude.{◌≡◌, ◌↔◌, ◌+◌, ◌<◌, ◌++◌, ◌∷◌, [], true, false, IsTrue, IfOk, IfErr, OnOk, length};
    ghost use Rattle.arrivals.specs.Amounts.{AreArrivals, arriving_of};
    ghost use Rattle.histories.specs.Histories.{IsLawful};
    ghost use Rattle.net_core.specs.Cores.{IsStepFault, IsWanted, MayStep, Stays};
    ghost use Rattle.runs.specs.Promises.{IsKeptRun};

    /// Begins a run: the nodes begin the first round, and rounds in which no node has a board step run at once. The arrivals are
    /// those of the network.
    ///
    /// `Err`: out of memory.
    ///
    /// docs/DESIGN.md, "Core".
    pub fn start<P: Planner>(
        alloc: Global,
        net: &'a Network,
        arrivals: &'a Arrivals,
        planner: &mut P,
    ) -> Result<Core<'a>, AllocError>
        requires { AreArrivals net.now arrivals.now }
        ensures { IfOk result (λ core.
            core ≡ record { net = net.now; arrivals = arrivals.now; steps = []; spent = false }) }
    {
        let empty = empty_record(alloc, net)?;
        let mut parts = parts_of(alloc, net)?;
        let mut kept = nothing_kept(alloc, net)?;
        open_round(alloc, net, arrivals, &mut parts, &mut kept, planner)?;
        go_on(alloc, net, arrivals, &mut parts, &mut kept, planner)?;
        Ok(Core {
            net,
            arrivals,
            parts,
            kept,
            empty,
            spent: false,
        })
    }

    /// The nodes that have done board steps, one after another.
    ///
    /// docs/DESIGN.md, "Core".
    pub fn steps(&self) -> &[u32]
        ensures { result.now ≡ self.now.steps }
    {
        self.kept.history.as_slice()
    }

    /// What a node wants to do next: nothing, where it has done its steps of this round, where all rounds are done, or where the
    /// core is spent.
    ///
    /// docs/DESIGN.md, "Core".
    pub fn wants(&self, node: u32) -> Want
        requires { node < length self.now.net.node_names }
        ensures spent { self.now.spent ≡ true → result ≡ Want.Done }
        ensures next { self.now.spent ≡ false → IsWanted self.now.net self.now.steps node result }
    {
        if self.spent {
            return Want::Done;
        }
        self.next_want(node)
    }

    /// What a node wants, where the core is not spent.
    fn next_want(&self, node: u32) -> Want
        requires node { node < length self.now.net.node_names }
        requires spent { self.now.spent ≡ false }
        ensures { IsWanted self.now.net self.now.steps node result }
    {
        law_of_network(self.net);
        self.parts.actors.all[node as usize].want()
    }

    /// Whether all rounds are done.
    ///
    /// docs/DESIGN.md, "Core".
    pub fn is_over(&self) -> bool
        ensures { IsTrue result ↔ ((self.now.spent ≡ false) × IsLawful self.now.net self.now.steps) }
    {
        let rounds = self.net.run().rounds;
        !self.spent && self.parts.round == rounds
    }

    /// A node does its next board step, and its own work after it: once it has read all, it plans. Rounds that are over then end,
    /// and the next ones begin.
    ///
    /// The first of `UnknownNode`, `Spent`, `Over` and `NotItsTurn` that holds is answered, takes no memory and leaves the core as it
    /// was. `NoMemory` comes only where none of them holds, and leaves the core spent, with its steps as they were.
    ///
    /// docs/DESIGN.md, "Core".
    pub fn step<P: Planner>(
        &mut self,
        alloc: Global,
        node: u32,
        planner: &mut P,
    ) -> Result<(), StepFault>
        ensures ok { OnOk result (self.new ≡ record self.old { steps = self.old.steps ++ node ∷ [] }) }
        ensures may { OnOk result (MayStep self.old node) }
        ensures fault { IfErr result (IsStepFault self.old node) }
        ensures refused { IfErr result (Stays self.old self.new) }
    {
        if node >= self.net.nodes() {
            return Err(StepFault::UnknownNode);
        }
        if self.spent {
            return Err(StepFault::Spent);
        }
        if self.parts.round == self.net.run().rounds {
            return Err(StepFault::Over);
        }
        if is_done(self.parts.actors.all[node as usize].want()) {
            return Err(StepFault::NotItsTurn);
        }
        match play(
            alloc,
            self.net,
            self.arrivals,
            node,
            &mut self.parts,
            &mut self.kept,
            planner,
        ) {
            Ok(()) => Ok(()),
            Err(AllocError) => {
                self.spent = true;
                Err(StepFault::NoMemory)
            }
        }
    }

    /// The record of the run, all of whose rounds are done: it is over. It takes no memory.
    ///
    /// docs/DESIGN.md, "Core".
    pub fn finish(self) -> RunRecord
        requires fresh { self.spent ≡ false }
        requires lawful { IsLawful self.net self.steps }
        ensures { IsKeptRun self.entry.net (arriving_of self.entry.arrivals) self.entry.steps result }
    {
        law_of_network(self.net);
        law_of_runs(self.net);
        let Core {
            net,
            parts,
            kept,
            empty,
            ..
        } = self;
        let Parts { actors, world, .. } = parts;
        let Kept { plans, .. } = kept;
        record_of(net, plans, actors, &world, empty)
    }
}
