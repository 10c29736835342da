//! Histories, and which are lawful.
ghost use Rattle.std.specs.Prelude.{◌≡◌, ◌≤◌, ◌<◌, ◌↔◌, ◌++◌, ℕ, List, IfOk, IsSome, IsTrue, OnOk, [], length, replicate, take};
ghost use Rattle.histories.specs.Steps.{board_steps};
ghost use Rattle.histories.specs.Histories as histories;
ghost use Rattle.histories.specs.Histories.{
  read_first,
  turns,
  version_at,
  CanGoOn,
  IsLawful,
  IsOfRound,
  IsUnderWay,
  ReadsRoundBefore,
};
ghost use Rattle.net_parts.specs.Outline.{link_at};

use crate::progress::Progress;
use crate::steps::step_count;
use foundation::threads::CrossesThreads;
use road_net::{Network, law_of_network};
use std::alloc::{AllocError, Global};
use std::marker::Model;

/// A history: the numbers of nodes, one for each board step.
///
/// docs/RULES.md, "Histories".
#[derive(Debug, Drop)]
pub struct History {
    steps: Vec<u32>,
}

impl Model for History {
    ghost use Rattle.std.specs.Prelude.{ℕ, List};

    ghost Value = { List ℕ };

    ghost view = { λ history. history.steps.items };
}

impl CrossesThreads for History {}

impl History {
    ghost use Rattle.std.specs.Prelude.{◌≡◌};

    /// The history with these nodes, in their order.
    ///
    /// docs/RULES.md, "Histories".
    pub fn new(steps: Vec<u32>) -> History
        ensures { result ≡ steps.items }
    {
        History { steps }
    }

    /// The nodes, in their order.
    ///
    /// docs/RULES.md, "Histories".
    pub fn steps(&self) -> &[u32]
        ensures { result.now ≡ self.now }
    {
        self.steps.as_slice()
    }
}

/// Whether a history is lawful for a network: its rounds follow one another, as many as the network has, and each has
/// each node as often as it has board steps. `Err`: out of memory.
///
/// docs/RULES.md, "Histories".
pub fn lawful(alloc: Global, net: &Network, h: &History) -> Result<bool, AllocError>
    ensures { IfOk result (λ is. IsTrue is ↔ IsLawful net.now h.now) }
{
    are_lawful(alloc, net, h.steps())
}

/// Whether these nodes are a lawful history of a network. `Err`: out of memory.
fn are_lawful(alloc: Global, net: &Network, nodes: &[u32]) -> Result<bool, AllocError>
    ensures { IfOk result (λ is. IsTrue is ↔ IsLawful net.now nodes.now) }
{
    let mut progress = Progress::new(alloc, net)?;
    for node in nodes {
        if progress.take(*node).is_err() {
            return Ok(false);
        }
    }
    Ok(progress.is_over())
}

/// The turn order: round by round, the nodes do all their board steps in number order. It is lawful. `Err`: out of memory.
///
/// docs/RULES.md, "Histories".
pub fn turn_order(alloc: Global, net: &Network) -> Result<History, AllocError>
    ensures value { IfOk result (λ h. h ≡ histories.turn_order net.now) }
    ensures lawful { IfOk result (λ h. IsLawful net.now h) }
{
    let mut round = Vec::new(alloc);
    push_turns(net, &mut round)?;
    let mut steps = Vec::new(alloc);
    for done in 0..net.run().rounds {
        steps.extend_from_slice(round.as_slice())?;
    }
    Ok(History::new(steps))
}

/// Appends the turns of all nodes to a list that is empty.
fn push_turns(net: &Network, round: &mut Vec<u32>) -> Result<(), AllocError>
    requires { round.old.items ≡ [] }
    ensures { OnOk result (round.new.items ≡ turns (board_steps net.now) (length net.now.node_names)) }
{
    for node in 0..net.nodes() {
        push_turn(node, step_count(net, node), round)?;
    }
    Ok(())
}

/// Appends a node to a list `count` times.
fn push_turn(node: u32, count: u32, round: &mut Vec<u32>) -> Result<(), AllocError>
    ensures { OnOk result (round.new.items ≡ round.old.items ++ replicate count node) }
{
    for step in 0..count {
        round.push(node)?;
    }
    Ok(())
}

/// Of every history under way: it can go on to a lawful one, and it is lawful exactly where all rounds are done. Each
/// beginning of a lawful history is under way.
///
/// docs/RULES.md, "Histories".
pub fn law_of_histories(net: &Network)
    ensures goes_on { (done : ℕ) (h : List ℕ) → IsUnderWay (board_steps net.now) net.now.run.rounds done h
        → CanGoOn (board_steps net.now) net.now.run.rounds h }
    ensures begins { (h : List ℕ) (place : ℕ) → IsLawful net.now h → place ≤ length h
        → (done : ℕ) × IsUnderWay (board_steps net.now) net.now.run.rounds done (take place h) }
    ensures over { (done : ℕ) (h : List ℕ) → IsUnderWay (board_steps net.now) net.now.run.rounds done h
        → IsLawful net.now h ↔ (done ≡ net.now.run.rounds) }
{
    law_of_network(net);
}

/// Of the versions in every history: they never fall, and in a lawful one the version of a link between two nodes is, at
/// each place, the round of the place or one more.
///
/// docs/RULES.md, "Histories".
pub fn law_of_versions(net: &Network)
    ensures rise { (h : List ℕ) (link early late : ℕ) → early ≤ late
        → version_at (board_steps net.now) h link early ≤ version_at (board_steps net.now) h link late }
    ensures round { (h : List ℕ) (link place : ℕ) → IsLawful net.now h → place < length h
        → IsSome (link_at net.now link).from → IsSome (link_at net.now link).to
        → IsOfRound (board_steps net.now) h link place }
{
    law_of_network(net);
}

/// Of the read-first order: it is lawful, and wherever a node reads a link, the version of the link is the round of the place, so
/// what is told in a round is read in the next one.
///
/// docs/RULES.md, "Histories".
pub fn law_of_reading_first(net: &Network)
    ensures lawful { IsLawful net.now (read_first net.now) }
    ensures before { ReadsRoundBefore (board_steps net.now) (read_first net.now) }
{
    law_of_network(net);
}
