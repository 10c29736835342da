//! The report of lines and totals.

ghost use Rattle.std.specs.Prelude.{◌≡◌, ◌≤◌, ℕ, IfOk};
ghost use Rattle.net_parts.specs.Limits.{most_of_all};
ghost use Rattle.audit.specs.{Audits.IsClean, Audits.IsCleanText, LineReports.cut_at, LineReports.line_text, SheetTexts.HasShape, SheetTexts.IsSheetText};
ghost use Rattle.net_simulator.specs.Sums.{end_of_run, total_arrived};

use control_flow::greens::Timeline;
use net_simulator::{LinkTotals, Totals};
use road_net::{Network, law_of_network};
use std::alloc::{AllocError, Global};
use world_records::{finish, start, write_header, write_shown};

/// The report of lines and totals: the header, the greens that are told up to the end of the run, by node and time, the
/// totals of each link, and all totals. It has no steps and no plans. There are a line for each node and totals of
/// each link. The text is that of the sheet of these greens and totals. Where what it says is clean for arrivals of at most
/// 2,000,000,000 in all, the text is read as a clean sheet. `Err`: out of memory.
///
/// docs/FORMATS.md, "Report".
pub fn line_report(
    alloc: Global,
    net: &Network,
    lines: &[Timeline],
    links: &[LinkTotals],
    totals: Totals,
) -> Result<Vec<u8>, AllocError>
    requires { HasShape net.now (record { lines = lines.now; links = links.now; totals = totals }) }
    ensures text { IfOk result (λ text. text.items
        ≡ line_text net.now (record { lines = lines.now; links = links.now; totals = totals })) }
    ensures sheet { IfOk result (λ text. IsSheetText net.now text.items
        (cut_at net.now (end_of_run net.now) (record { lines = lines.now; links = links.now; totals = totals }))) }
    ensures clean { (arriving : ℕ → ℕ → ℕ) → ((n : ℕ) → total_arrived net.now arriving n ≤ most_of_all)
        → IsClean net.now arriving (record { lines = lines.now; links = links.now; totals = totals })
        → IfOk result (λ text. IsCleanText net.now arriving text.items) }
{
    law_of_network(net);
    let mut out = start(Vec::new(alloc));
    write_header(&mut out)?;
    write_shown(net, lines, links, totals, &mut out)?;
    finish(out)
}
