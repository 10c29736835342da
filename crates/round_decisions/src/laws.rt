//! What decisions are in a run.
ghost use Rattle.std.specs.Prelude.{ℕ, ◌<◌, List, Some, length};
ghost use Rattle.round_states.specs.{States.IsStateOf, declared.asked.Asked.TheVariants.AllNodes, declared.asked.Asked.TheVariants.OneNode, declared.states.RoundState.RoundState};
ghost use Rattle.board_model.specs.declared.boards.Heard.{Heard};
ghost use Rattle.intersection_actor.specs.Commits.{Commitment};
ghost use Rattle.histories.specs.Histories.{read_first};
ghost use Rattle.runs.specs.{Runs.IsRun, declared.records.RunRecord.RunRecord};
ghost use Rattle.round_decisions.specs.{Chains.IsChain, Chains.IsChainOf, Decisions.IsDecision, OfRuns.IsRoundIn, OfRuns.IsStateIn, OfRuns.IsTurnRun, Origins.IsMovedDecision, Origins.IsMovedState, Origins.IsMovedTurn, Origins.IsTurnOf};
ghost use Rattle.round_decisions.specs.OwnTurns.{
  HearsRoundBefore,
  IsOwnChain,
  IsOwnChainOf,
  IsOwnRun,
  IsOwnStateIn,
  IsTurnIn,
};
ghost use Rattle.round_decisions.specs.{declared.decisions.Decision.Decision, declared.decisions.NodeDecision.NodeDecision};

use road_net::{Network, law_of_network};

/// Where a state is that of its round in the run of the turn order, each decision from it is the run's round: its plan records
/// are those of the round, its lines those of the round's commits, and its boards those with which the run's next round begins.
///
/// docs/RULES.md, "Decision of a round".
pub fn law_of_decisions(net: &Network)
    ensures { (arriving : ℕ → ℕ → ℕ) (heard : ℕ → ℕ → List Heard) (made : ℕ → ℕ → Commitment) (run : RunRecord)
        (state : RoundState) (d : Decision)
        → IsTurnRun net.now arriving heard made run → IsStateIn net.now arriving made state → IsDecision net.now state d
        → IsRoundIn net.now heard made state.round d }
{
    law_of_network(net);
}

/// A chain of decisions, each from the lines and boards that the one before it tells, is the run of the turn order: each decision
/// tells the plan records, lines and forecasts of its round, and the vehicles move as in the run.
///
/// docs/RULES.md, "Decision of a round".
pub fn law_of_chains(net: &Network)
    ensures { (arriving : ℕ → ℕ → ℕ) (heard : ℕ → ℕ → List Heard) (made : ℕ → ℕ → Commitment) (run : RunRecord)
        (states : ℕ → RoundState) (decisions : ℕ → Decision)
        → IsTurnRun net.now arriving heard made run → IsChain net.now arriving states decisions
        → IsChainOf net.now arriving heard made decisions }
{
    law_of_network(net);
}

/// A decision does not depend on the second from which seconds are counted: from a state moved by some rounds, whatever the versions
/// of its boards, the decision is the same one, moved by as many seconds as these rounds take; and so is what one node decides.
///
/// docs/RULES.md, "Decision of a round".
pub fn law_of_origins(net: &Network)
    ensures all { (rounds : ℕ) (state moved : RoundState) (d other : Decision)
        → IsStateOf net.now AllNodes state → IsMovedState net.now rounds state moved
        → IsDecision net.now state d → IsDecision net.now moved other
        → IsMovedDecision net.now rounds state moved d other }
    ensures one { (rounds node : ℕ) (state moved : RoundState) (d other : NodeDecision)
        → IsStateOf net.now (OneNode (Some node)) state → IsMovedState net.now rounds state moved
        → node < length net.now.node_names → IsTurnOf net.now state node d → IsTurnOf net.now moved node other
        → IsMovedTurn net.now rounds state moved d other }
{
    law_of_network(net);
}

/// Of the run of the read-first order, in which in each round all nodes read before any of them publishes. Each node hears what was told
/// in the round before. So the turn that a node has by itself, from its own line, what it senses and these forecasts, is its part of
/// the run's round; a chain of such turns, in which nodes have nothing of each other but the forecasts, is the run; and each such
/// chain makes one.
///
/// docs/RULES.md, "Decision of a round".
pub fn law_of_own_turns(net: &Network)
    ensures heard { (arriving : ℕ → ℕ → ℕ) (record_of_run : RunRecord)
        → (run : IsRun net.now arriving (read_first net.now) record_of_run)
        → HearsRoundBefore net.now run.heard run.made }
    ensures turn { (arriving : ℕ → ℕ → ℕ) (record_of_run : RunRecord) (state : RoundState) (node : ℕ) (d : NodeDecision)
        → (run : IsRun net.now arriving (read_first net.now) record_of_run) → node < length net.now.node_names
        → IsOwnStateIn net.now arriving run.made node state → IsTurnOf net.now state node d
        → IsTurnIn net.now run.heard run.made state.round node d }
    ensures chain { (arriving : ℕ → ℕ → ℕ) (record_of_run : RunRecord)
        (states : ℕ → ℕ → RoundState) (turns : ℕ → ℕ → NodeDecision)
        → (run : IsRun net.now arriving (read_first net.now) record_of_run) → IsOwnChain net.now arriving states turns
        → IsOwnChainOf net.now arriving run.heard run.made turns }
    ensures run { (arriving : ℕ → ℕ → ℕ) (states : ℕ → ℕ → RoundState) (turns : ℕ → ℕ → NodeDecision)
        → IsOwnChain net.now arriving states turns → IsOwnRun net.now arriving turns }
{
    law_of_network(net);
}
