//! What the merge of the logs of calls is.
ghost use Rattle.std.specs.Prelude.{◌≡◌, ℕ, List};
ghost use Rattle.board_model.specs.{Boards.Log, Calls.log_at, Calls.Agree, Calls.AreLogsOf, declared.calls.Call.Call};
ghost use Rattle.histories.specs.{Calls.AreCalls, Histories.IsLawful, Merges.IsMerge, Places.AreTold, Steps.board_steps, Steps.publisher};

use road_net::{Network, law_of_network};

/// Where the nodes have made their board steps, round by round, each in the order of its stamps, and all stamps of a round
/// below those of the next: the merge of the logs of these calls is one history, and lawful. Where the logs agree with the
/// calls, each place of that history has its call, and each call its place; a reading has the version of its place, and the
/// forecast that was published as that version.
///
/// docs/DESIGN.md, "Histories of threads".
pub fn law_of_merged_calls(net: &Network)
    ensures lawful { (calls : ℕ → List Call) (logs : List Log) (h : List ℕ)
        → AreCalls (board_steps net.now) net.now.run.rounds calls
        → AreLogsOf calls (log_at logs) → IsMerge logs h → IsLawful net.now h }
    ensures one { (calls : ℕ → List Call) (logs : List Log) (h other : List ℕ)
        → AreCalls (board_steps net.now) net.now.run.rounds calls
        → AreLogsOf calls (log_at logs) → IsMerge logs h → IsMerge logs other → h ≡ other }
    ensures stands { (calls : ℕ → List Call) (logs : List Log) (h : List ℕ)
        → AreCalls (board_steps net.now) net.now.run.rounds calls
        → AreLogsOf calls (log_at logs) → Agree calls (log_at logs) → IsMerge logs h
        → AreTold (board_steps net.now) (publisher net.now) calls h }
{
    law_of_network(net);
}
