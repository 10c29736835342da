//! The report of a run.
ghost use Rattle.std.specs.Prelude.{◌≡◌, ℕ, ◌≤◌, List, ◌++◌, IfOk, OnOk};
ghost use Rattle.net_parts.specs.Limits.{most_of_all};
ghost use Rattle.audit.specs.Audits.{IsCleanText};
ghost use Rattle.histories.specs.Histories.{IsLawful};
ghost use Rattle.net_simulator.specs.Sums.{total_arrived};
ghost use Rattle.runs.specs.{Complete.IsComplete, Promises.IsKeptRun, declared.records.RunRecord.RunRecord};
ghost use Rattle.delay_report.specs.{Reports.outcome_records, Reports.records_text, Reports.report_text, Reports.steps_records, Texts.IsHistoryText};
ghost use Rattle.road_net.specs.Network.{IsNetwork};

use crate::plans::write_plans;
use crate::steps::write_steps;
use histories::History;
use road_net::{Network, law_of_network};
use runs::RunRecord;
use std::alloc::{AllocError, Global};
use world_records::{finish, start, write_header, write_shown};

// The capacity for a step of a report, in bytes, so that the text seldom has to move as it grows: the record takes some 28, and what
// follows the steps a third as much again.
const CAPACITY_OF_A_STEP: usize = 40;

// The capacity for a plan, in bytes: its record takes some 60, and the greens and links after the plans few more for each.
const CAPACITY_OF_A_PLAN: usize = 80;

/// The report of a run of a history, from which `read_history` reads the history again. `Err`: out of memory.
///
/// docs/FORMATS.md, "Report".
pub fn render(
    alloc: Global,
    net: &Network,
    run: &RunRecord,
    h: &History,
) -> Result<Vec<u8>, AllocError>
    requires lawful { IsLawful net.now h.now }
    requires whole { IsComplete net.now run.now }
    ensures text { IfOk result (λ text. text.items ≡ report_text net.now run.now h.now) }
    ensures history { IfOk result (λ text. IsHistoryText net.now text.items h.now) }
{
    let steps = render_steps(alloc, net, h)?;
    render_outcome(alloc, net, run, steps)
}

/// The front of the report of a history: the header, and the steps in their order. `Err`: out of memory.
///
/// docs/FORMATS.md, "Report".
pub fn render_steps(alloc: Global, net: &Network, h: &History) -> Result<Vec<u8>, AllocError>
    requires { IsLawful net.now h.now }
    ensures text { IfOk result (λ text. text.items ≡ records_text (steps_records net.now h.now)) }
    ensures network { OnOk result (IsNetwork net.now) }
{
    let capacity = h.steps().len().saturating_mul(CAPACITY_OF_A_STEP);
    let mut out = start(Vec::with_capacity(alloc, capacity)?);
    write_header(&mut out)?;
    write_steps(alloc, net, h.steps(), &mut out)?;
    finish(out)
}

/// Appends to a text the outcome of a run: the plans, the greens, the links and all totals. `Err`: out of memory.
///
/// docs/FORMATS.md, "Report".
pub fn render_outcome(
    alloc: Global,
    net: &Network,
    run: &RunRecord,
    mut text: Vec<u8>,
) -> Result<Vec<u8>, AllocError>
    requires { IsComplete net.now run.now }
    ensures { IfOk result (λ all. all.items ≡ text.items ++ records_text (outcome_records net.now run.now)) }
{
    text.reserve(run.plans.len().saturating_mul(CAPACITY_OF_A_PLAN))?;
    let mut out = start(text);
    write_plans(alloc, net, run.plans.as_slice(), &mut out)?;
    let lines = run.timelines.as_slice();
    let links = run.links.as_slice();
    write_shown(net, lines, links, run.totals, &mut out)?;
    finish(out)
}

/// The report of a run of a history: its front, and after it the outcome of the run. `Err`: out of memory.
///
/// docs/FORMATS.md, "Report".
pub fn join_report(net: &Network, steps: Vec<u8>, outcome: &[u8]) -> Result<Vec<u8>, AllocError>
    ensures text { (run : RunRecord) (history : List ℕ) → steps.items ≡ records_text (steps_records net.now history)
        → outcome.now ≡ records_text (outcome_records net.now run)
        → IfOk result (λ text. text.items ≡ report_text net.now run history) }
{
    law_of_network(net);
    let mut text = steps;
    text.extend_from_slice(outcome)?;
    Ok(text)
}

/// The report of a lawful history is a text of that history, and a text is a text of one history at most. The report of
/// each run, where no more arrives than arrivals may bring, is the text of one sheet, which is clean.
///
/// docs/FORMATS.md, "Report".
pub fn law_of_reports(net: &Network)
    ensures reads_back { (run : RunRecord) (history : List ℕ) → IsLawful net.now history
        → IsHistoryText net.now (report_text net.now run history) history }
    ensures one { (bytes one other : List ℕ) → IsHistoryText net.now bytes one → IsHistoryText net.now bytes other
        → one ≡ other }
    ensures clean { (run : RunRecord) (history : List ℕ) (arriving : ℕ → ℕ → ℕ) → IsKeptRun net.now arriving history run
        → ((n : ℕ) → total_arrived net.now arriving n ≤ most_of_all)
        → IsCleanText net.now arriving (report_text net.now run history) }
{
    law_of_network(net);
}
