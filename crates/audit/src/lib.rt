//! Sheets: what a report says that the signals of a network showed, and what its world counted, whoever wrote it. Audits: whether a
//! sheet is clean, and else the first reason why it is not. Lines that are given: their run, which is clean, and the report of lines
//! and totals.
#![tactic(auto)]

mod clean_waits;
mod counts;
mod fault_codes;
mod findings;
mod line_reports;
mod line_runs;
mod lines;
mod rows;
mod sheet;
mod sheet_entries;
mod sheet_faults;
mod sheet_fields;
mod sheet_reader;
mod sheet_texts;

ghost use Rattle.std.specs.Prelude.{◌≡◌, ◌↔◌, ◌<◌, ◌^◌, All, IfOk, length};
ghost use Rattle.arrivals.specs.Amounts.{AreArrivals, arriving_of};
ghost use Rattle.audit.specs.{Audits.IfBad, Audits.IfClean, Audits.IfUnclean, Audits.IsClean, Audits.IsWhy, SheetTexts.HasShape};
ghost use Rattle.net_simulator.specs.Worlds.{line_in};
ghost use Rattle.signal_safety.specs.Safe.{IsSafe};

use arrivals::Arrivals;
pub use clean_waits::law_of_clean_waits;
use counts::compare;
pub use findings::{AuditWhy, Audited, Finding};
use foundation::items::Items;
pub use line_reports::line_report;
pub use line_runs::{LineRun, list_totals, run_lines};
use lines::timelines;
use road_net::Network;
use rows::first_unlawful;
pub use sheet::Sheet;
pub use sheet_faults::SheetFault;
pub use sheet_texts::read_sheet;
use std::alloc::{AllocError, Global};

/// Whether a sheet is clean: each of its lines is lawful for the plan of its node, and its totals are those that the
/// world shows under these lines and the arrivals, from second 0 up to the end of the last round. Else the first reason
/// why it is not. Of the rows that begin at that end or later all count for lawfulness, and for the totals the first of each node alone,
/// by its phase.
///
/// Under the greens of a clean sheet the network is safe. Of a sheet with the shape of the network, each of whose lines
/// has fewer than 4,294,967,296 rows, nothing else is asked.
///
/// `Err`: out of memory.
///
/// docs/RULES.md, "Audit".
pub fn audit(
    alloc: Global,
    net: &Network,
    arrivals: &Arrivals,
    sheet: Sheet,
) -> Result<Finding, AllocError>
    requires shape { HasShape net.now sheet }
    requires rows { All (λ rows. length rows < 2 ^ 32) sheet.lines }
    requires arrivals { AreArrivals net.now arrivals.now }
    ensures clean { IfOk result (λ f. f ≡ Finding.Clean ↔ IsClean net.now (arriving_of arrivals.now) sheet) }
    ensures safe { IfOk result (λ f. f ≡ Finding.Clean → IsSafe net.now (line_in sheet.lines)) }
    ensures first { IfOk result (λ f. IfBad f (IsWhy net.now (arriving_of arrivals.now) sheet)) }
{
    match audit_lines(alloc, net, arrivals, sheet)? {
        Audited::Clean(_) => Ok(Finding::Clean),
        Audited::Bad(why) => Ok(Finding::Bad(why)),
    }
}

/// The lines of a sheet, where `audit` finds that it is clean; else the first reason why it is not.
///
/// `Err`: out of memory.
///
/// docs/RULES.md, "Audit".
pub fn audit_lines(
    alloc: Global,
    net: &Network,
    arrivals: &Arrivals,
    sheet: Sheet,
) -> Result<Audited, AllocError>
    requires shape { HasShape net.now sheet }
    requires rows { All (λ rows. length rows < 2 ^ 32) sheet.lines }
    requires arrivals { AreArrivals net.now arrivals.now }
    ensures lines { IfOk result (λ a. IfClean a (λ lines. lines ≡ sheet.lines)) }
    ensures clean { IfOk result (λ a. IfClean a (λ lines. IsClean net.now (arriving_of arrivals.now) sheet)) }
    ensures safe { IfOk result (λ a. IfClean a (λ lines. IsSafe net.now (line_in sheet.lines))) }
    ensures refused { IfOk result (λ a. IfUnclean a (λ why. ¬ IsClean net.now (arriving_of arrivals.now) sheet)) }
    ensures first { IfOk result (λ a. IfUnclean a (IsWhy net.now (arriving_of arrivals.now) sheet)) }
{
    if let Some(why) = first_unlawful(net, &sheet) {
        return Ok(Audited::Bad(why));
    }
    let Sheet {
        lines,
        links,
        totals,
    } = sheet;
    let lines = timelines(alloc, lines.into_vec())?;
    match compare(
        alloc,
        net,
        arrivals,
        lines.as_slice(),
        links.as_slice(),
        totals,
    )? {
        Finding::Clean => Ok(Audited::Clean(Items::from_vec(lines))),
        Finding::Bad(why) => Ok(Audited::Bad(why)),
    }
}
