//! What every run keeps.
ghost use Rattle.std.specs.Prelude.{◌≡◌, ℕ, List};
ghost use Rattle.histories.specs.Histories.{IsLawful};
ghost use Rattle.runs.specs.{Complete.IsComplete, Promises.KeepsPromises, Runs.IsRun, declared.records.RunRecord.RunRecord};

use road_net::{Network, law_of_network};

/// Every run of a lawful history keeps what is promised of plans and signals: each plan names the versions that it used, none
/// older than one that its node had seen; its instance is that of just these versions and of what the node sensed, and no sequence
/// of it has less delay; the signals are lawful and safe, and show at last what the world moved by; and each queue of a link without
/// a walk, of a phase that has a bound, loses something within it. Its record has one plan for each round and node, in their order.
///
/// docs/RULES.md, "Run".
pub fn law_of_runs(net: &Network)
    ensures kept { (arriving : ℕ → ℕ → ℕ) (history : List ℕ) (record_of_run : RunRecord) → IsLawful net.now history
        → (run : IsRun net.now arriving history record_of_run)
        → KeepsPromises net.now arriving history run.made record_of_run }
    ensures whole { (arriving : ℕ → ℕ → ℕ) (history : List ℕ) (record_of_run : RunRecord) → IsLawful net.now history
        → IsRun net.now arriving history record_of_run → IsComplete net.now record_of_run }
{
    law_of_network(net);
}

/// A lawful history has one run for what enters the links in each second: two records of it are the same.
///
/// docs/RULES.md, "Run".
pub fn law_of_one_run(net: &Network)
    ensures { (arriving : ℕ → ℕ → ℕ) (history : List ℕ) (one other : RunRecord) → IsLawful net.now history
        → IsRun net.now arriving history one → IsRun net.now arriving history other → one ≡ other }
{
    law_of_network(net);
}
