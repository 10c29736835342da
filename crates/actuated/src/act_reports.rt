//! The report of a run.

ghost use Rattle.std.specs.Prelude.{◌≡◌, ◌≤◌, ℕ, IfOk};
ghost use Rattle.net_parts.specs.Limits.{most_of_all};
ghost use Rattle.audit.specs.{Audits.IsClean, Audits.IsCleanText, LineRuns.sheet_of, SheetTexts.HasShape};
ghost use Rattle.net_simulator.specs.Sums.{total_arrived};
ghost use Rattle.actuated.specs.Reports.{act_text};

use super::records::ActRecord;
use audit::line_report;
use road_net::Network;
use std::alloc::{AllocError, Global};

/// The report of a run, that of its last lines and totals: the header, the greens that are told up to the end of the
/// run, by node and time, the totals of each link, and all totals. It has no steps and no plans. The record has the
/// network's shape. Where what it says is clean for arrivals of at most 2,000,000,000 in all, the text is read as a
/// clean sheet. `Err`: out of memory.
///
/// docs/FORMATS.md, "Report".
pub fn act_report(alloc: Global, net: &Network, run: &ActRecord) -> Result<Vec<u8>, AllocError>
    requires { HasShape net.now (sheet_of run.now) }
    ensures text { IfOk result (λ text. text.items ≡ act_text net.now run.now) }
    ensures clean { (arriving : ℕ → ℕ → ℕ) → ((n : ℕ) → total_arrived net.now arriving n ≤ most_of_all)
        → IsClean net.now arriving (sheet_of run.now)
        → IfOk result (λ text. IsCleanText net.now arriving text.items) }
{
    let lines = run.timelines.as_slice();
    let links = run.links.as_slice();
    line_report(alloc, net, lines, links, run.totals)
}
