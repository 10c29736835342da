//! The actors of a network: the new ones, and how what they have planned is moved to the plans of the run.
ghost use Rattle.std.specs.Prelude.{IfOk, length};
ghost use Rattle.runs.specs.Resting.{AreNew};

use control_flow::greens::Sign;
use control_flow::sign_at;
use foundation::threads::CrossesThreads;
use intersection_actor::{Actor, PlanRecord};
use net_simulator::Lights;
use road_net::Network;
use std::alloc::{AllocError, Global};

/// The actors of a network, one for each node: their lines are what the world moves by.
///
/// docs/DESIGN.md, "Core".
#[derive(Drop)]
pub struct Actors {
    /// The actors, by node.
    pub all: Vec<Actor>,
}

impl CrossesThreads for Actors {}

impl Lights for Actors {
    ghost use Rattle.runs.specs.Resting.{lines_of};

    ghost lines = { λ actors node. lines_of actors.all.items node };

    fn sign(&self, node: u32, second: u32) -> Sign {
        if node as usize >= self.all.len() {
            return Sign::Dark;
        }
        sign_at(self.all[node as usize].timeline(), second)
    }
}

impl Actors {
    ghost use Rattle.std.specs.Prelude.{◌≡◌, ◌+◌, ◌≤◌, ◌++◌, length, map, vec_capacity, vec_len};
    ghost use Rattle.intersection_actor.specs.Acting.{without_records};
    ghost use Rattle.runs.specs.Ending.{records_in};

    /// Moves what the actors have planned to the end of the plans of a run, by node. The actors keep none.
    ///
    /// The list has capacity for it, so the call cannot fail.
    ///
    /// docs/RULES.md, "Run".
    pub fn move_records(&mut self, plans: &mut Vec<PlanRecord>)
        requires { vec_len plans.old + length (records_in self.old.all.items) ≤ vec_capacity plans.old }
        ensures plans { plans.new.items ≡ plans.old.items ++ records_in self.old.all.items }
        ensures capacity { vec_capacity plans.old ≤ vec_capacity plans.new }
        ensures actors { self.new.all.items ≡ map without_records self.old.all.items }
    {
        for node in 0..self.all.len() {
            self.all[node].move_records(plans);
        }
    }
}

/// The new actors of all nodes.
///
/// `Err`: out of memory.
///
/// docs/DESIGN.md, "Core".
pub fn actors_of(alloc: Global, net: &Network) -> Result<Actors, AllocError>
    ensures { IfOk result (λ actors. AreNew net.now (length net.now.node_names) actors.all.items) }
{
    let mut all = Vec::with_capacity(alloc, net.nodes() as usize)?;
    for node in 0..net.nodes() {
        all.push(Actor::new(alloc, net, node)?)?;
    }
    Ok(Actors { all })
}
