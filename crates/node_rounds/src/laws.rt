//! What the calls of the nodes' passes tell of all rounds.
ghost use Rattle.std.specs.Prelude.{ℕ, List};
ghost use Rattle.board_model.specs.{declared.boards.Heard.Heard, declared.calls.Call.Call};
ghost use Rattle.histories.specs.{Histories.IsLawful, Places.AreTold, Steps.board_steps, Steps.publisher};
ghost use Rattle.intersection_actor.specs.Commits.{Commitment};
ghost use Rattle.runs.specs.Runs.{HearAlong};
ghost use Rattle.node_rounds.specs.Rounds.{AreCallsIn};

use road_net::{Network, law_of_network};

/// Where the calls of the nodes are those of all rounds, and stand in a lawful history with the versions of their places, the nodes
/// have heard along that history.
///
/// docs/DESIGN.md, "Rounds in threads".
pub fn law_of_round_calls(net: &Network)
    ensures { (heard : ℕ → ℕ → List Heard) (made : ℕ → ℕ → Commitment) (calls : ℕ → List Call) (history : List ℕ)
        → AreCallsIn net.now heard made net.now.run.rounds calls
        → IsLawful net.now history → AreTold (board_steps net.now) (publisher net.now) calls history
        → HearAlong net.now history heard made }
{
    law_of_network(net);
}
