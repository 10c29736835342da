//! How far a history has come, step by step.
ghost use Rattle.std.specs.Prelude.{◌≡◌, ◌≤◌, ◌<◌, ◌-◌, ◌*◌, ◌^◌, ◌==◌, ℕ, All, IfOk, if◌then◌else◌, length, slice_index_or, slice_set, sum_by};
ghost use Rattle.net_parts.specs.Limits.{most_links};
ghost use Rattle.histories.specs.Steps.{board_steps};

use crate::steps::step_count;
use foundation::threads::CrossesThreads;
use road_net::Network;
use std::alloc::{AllocError, Global};
use std::marker::Model;

/// Why a node has no step next.
///
/// docs/RULES.md, "Histories".
#[derive(Debug, Clone, Copy, PartialEq, Eq)]
pub enum Stop {
    /// All rounds are done.
    Over,
    /// It has done all its steps in this round.
    NotItsTurn,
}

impl CrossesThreads for Stop {}

/// How far a history of a network has come: how many of its rounds are done, and which steps are left in the one under way.
///
/// docs/RULES.md, "Histories".
#[derive(Drop)]
pub struct Progress {
    rounds: u32,
    done: u32,
    /// The steps of each node in a round.
    steps: Vec<u32>,
    /// Those of all nodes together.
    whole: u32,
    /// The steps of each node that are left in this round.
    left: Vec<u32>,
    /// Those of all nodes together.
    whole_left: u32,
}

impl Model for Progress {
    ghost use Rattle.histories.specs.Progress.{Course};

    ghost Value = { Course };

    ghost use Rattle.histories.specs.Stored.{IsStored};

    ghost view = { λ p. record { rounds = p.rounds; done = p.done; steps = p.steps.items; left = p.left.items } };

    ghost invariant = { λ p. IsStored p.rounds p.done p.steps.items p.whole p.left.items p.whole_left };
}

impl CrossesThreads for Progress {}

impl Progress {
    ghost use Rattle.std.specs.Prelude.{◌≡◌, ◌↔◌, ◌++◌, ◌∷◌, ℕ, List, [], IfErr, IfOk, IsTrue, OnErr, OnOk};
    ghost use Rattle.net_parts.specs.Numbers.{Net};
    ghost use Rattle.road_net.specs.Network.{IsNetwork};
    ghost use Rattle.histories.specs.{Histories.IsLawful, Progress.HasCome, Progress.IsStop, Progress.IsStuck};

    /// The progress of the history that is empty. `Err`: out of memory.
    ///
    /// docs/RULES.md, "Histories".
    pub fn new(alloc: Global, net: &Network) -> Result<Progress, AllocError>
        ensures come { IfOk result (HasCome net.now []) }
        ensures network { IsNetwork net.now }
    {
        let rounds = net.run().rounds;
        let steps = step_counts(alloc, net)?;
        let left = same_counts(alloc, steps.as_slice())?;
        let whole = total(steps.as_slice());
        let done = rounds_without_steps(whole, rounds);
        Ok(Progress {
            rounds,
            done,
            steps,
            whole,
            left,
            whole_left: whole,
        })
    }

    /// Takes the next step of a node, where it has one. `Err`: why it has none, and nothing changes. It takes no memory.
    ///
    /// docs/RULES.md, "Histories".
    pub fn take(&mut self, node: u32) -> Result<(), Stop>
        ensures ok { OnOk result ((net : Net) (history : List ℕ) → HasCome net history self.old
            → HasCome net (history ++ node ∷ []) self.new) }
        ensures first { IfErr result (λ stop. (net : Net) (history : List ℕ) → HasCome net history self.old
            → IsStop net history node stop) }
        ensures stuck { OnErr result ((net : Net) (history : List ℕ) → HasCome net history self.old
            → IsStuck net history node) }
        ensures unchanged { OnErr result (self.new ≡ self.old) }
    {
        if self.done == self.rounds {
            return Err(Stop::Over);
        }
        if count_at(self.left.as_slice(), node) == 0 {
            return Err(Stop::NotItsTurn);
        }
        take_one(&mut self.left, node);
        self.whole_left -= 1;
        if self.whole_left == 0 {
            copy_counts(&mut self.left, self.steps.as_slice());
            self.whole_left = self.whole;
            self.done += 1;
        }
        Ok(())
    }

    /// Whether all rounds are done.
    ///
    /// docs/RULES.md, "Histories".
    pub fn is_over(&self) -> bool
        ensures { (net : Net) (history : List ℕ) → HasCome net history self.now → IsTrue result ↔ IsLawful net history }
    {
        self.done == self.rounds
    }
}

/// The count of a node; 0 where there is no such node.
fn count_at(counts: &[u32], node: u32) -> u32
    ensures { result ≡ slice_index_or counts.now node 0 }
{
    match counts.get(node as usize) {
        Some(count) => *count,
        None => 0,
    }
}

/// Takes one from the count of a node.
fn take_one(counts: &mut Vec<u32>, node: u32)
    requires { 0 < slice_index_or counts.old.items node 0 }
    ensures { counts.new.items ≡ slice_set counts.old.items node (slice_index_or counts.old.items node 0 - 1) }
{
    counts[node as usize] -= 1;
}

/// Makes the counts these ones.
fn copy_counts(counts: &mut Vec<u32>, new: &[u32])
    requires { length counts.old.items ≡ length new.now }
    ensures { counts.new.items ≡ new.now }
{
    counts.copy_from_slice(new);
}

/// How many rounds are done before the first step: all, where no node has a step.
fn rounds_without_steps(whole: u32, rounds: u32) -> u32
    ensures { result ≡ (if whole == 0 then rounds else 0) }
{
    if whole == 0 { rounds } else { 0 }
}

/// How many board steps each node has in a round. `Err`: out of memory.
fn step_counts(alloc: Global, net: &Network) -> Result<Vec<u32>, AllocError>
    ensures counts { IfOk result (λ counts. (n : ℕ) →
        slice_index_or counts.items n 0 ≡ length (board_steps net.now n)) }
    ensures few { IfOk result (λ counts. All (λ c. c ≤ most_links) counts.items) }
    ensures short { IfOk result (λ counts. most_links * length counts.items < 2 ^ 32) }
{
    let mut counts = Vec::new(alloc);
    for node in 0..net.nodes() {
        counts.push(step_count(net, node))?;
    }
    Ok(counts)
}

/// A list of the same counts. `Err`: out of memory.
fn same_counts(alloc: Global, counts: &[u32]) -> Result<Vec<u32>, AllocError>
    ensures { IfOk result (λ same. same.items ≡ counts.now) }
{
    let mut same = Vec::new(alloc);
    same.extend_from_slice(counts)?;
    Ok(same)
}

/// All these counts together.
fn total(counts: &[u32]) -> u32
    requires few { All (λ c. c ≤ most_links) counts.now }
    requires short { most_links * length counts.now < 2 ^ 32 }
    ensures { result ≡ sum_by (λ c. c) counts.now }
{
    let mut sum = 0;
    for count in counts {
        sum += *count;
    }
    sum
}
