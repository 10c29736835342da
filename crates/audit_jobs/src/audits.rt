//! The command `audit NET ARR REPORT`.
ghost use Rattle.std.specs.Prelude.{◌≡◌, ◌∷◌, ◌++◌, ◌<◌, ◌^◌, ℕ, List, All, IfOk, OnOk, length};
ghost use Rattle.std.specs.Fmt.{decimal};
ghost use Rattle.arrivals.specs.Amounts.{AreArrivals, arriving_of};
ghost use Rattle.net_parts.specs.Outline.{node_name_at};
ghost use Rattle.audit.specs.SheetTexts.{HasShape};
ghost use Rattle.commands.specs.{Ending.IsMadeOf, Outcome.Outcome};
ghost use Rattle.audit_jobs.specs.{Findings.NamesPart, Meanings.audit_meaning, Verdicts.finding_text, Verdicts.unclean_line};

use crate::kinds::SheetFile;
use arrivals::Arrivals;
use audit::{AuditWhy, Finding, Sheet, audit};
use commands::{Made, Refusal, Status, Work, job};
use outside_world::{Shelf, Sink};
use road_net::Network;
use scene_jobs::{SceneWith, fetch_scene_with};
use std::alloc::{AllocError, Global};
use text_lines::push_one;

/// What is written for a sheet that is not clean. `Err`: out of memory.
pub(crate) fn unclean_line(
    alloc: Global,
    net: &Network,
    why: AuditWhy,
) -> Result<Vec<u8>, AllocError>
    requires { NamesPart net.now why }
    ensures { IfOk result (λ line. line.items ≡ unclean_line net.now why) }
{
    let mut line = Vec::from_slice(alloc, b"rejected ")?;
    push_finding(&mut line, net, why)?;
    line.extend_from_slice(b"\n")?;
    Ok(line)
}

// Appends why a sheet is not clean.
fn push_finding(line: &mut Vec<u8>, net: &Network, why: AuditWhy) -> Result<(), AllocError>
    requires { NamesPart net.now why }
    ensures { OnOk result (line.new.items ≡ line.old.items ++ finding_text net.now why) }
{
    match why {
        AuditWhy::Span { node, row } => push_row(line, b"span ", net, node, row),
        AuditWhy::Next { node, row } => push_row(line, b"next ", net, node, row),
        AuditWhy::Link { link } => {
            line.extend_from_slice(b"link ")?;
            line.extend_from_slice(net.link_name(link).as_bytes())
        }
        AuditWhy::Total => line.extend_from_slice(b"total"),
    }
}

// Appends a word, the name of a node and the number of a row.
fn push_row(
    line: &mut Vec<u8>,
    word: &[u8],
    net: &Network,
    node: u32,
    row: u32,
) -> Result<(), AllocError>
    requires { node < length net.now.node_names }
    ensures { OnOk result (line.new.items
        ≡ line.old.items ++ (word.now ++ node_name_at net.now node ++ 32 ∷ decimal row)) }
{
    line.extend_from_slice(word)?;
    line.extend_from_slice(net.node_name(node).as_bytes())?;
    push_one(line, b" ", u64::from(row))
}

// The verdict on what a report says, whatever files it and the others stand in.
#[tactic(auto, using(crate::proofs::Findings::names_part))]
fn verdict(
    alloc: Global,
    net: &Network,
    arrivals: &Arrivals,
    sheet: Sheet,
) -> Result<Made, AllocError>
    requires arrivals { AreArrivals net.now arrivals.now }
    requires shape { HasShape net.now sheet }
    requires rows { All (λ rows. length rows < 2 ^ 32) sheet.lines }
    ensures { (file arr report : List ℕ) → IfOk result (λ made.
        IsMadeOf (audit_meaning file arr report) made (net.now, (arriving_of arrivals.now, (sheet, tt)))) }
{
    match audit(alloc, net, arrivals, sheet)? {
        Finding::Clean => {
            let line = Vec::from_slice(alloc, b"accepted\n")?;
            Ok(Made::Done(line))
        }
        Finding::Bad(why) => {
            let line = unclean_line(alloc, net, why)?;
            Ok(Made::Rejected(line))
        }
    }
}

/// `audit` with the names of its files.
#[derive(Clone, Copy)]
struct AuditWork<'a> {
    net: &'a str,
    arr: &'a str,
    report: &'a str,
}

impl Work for AuditWork<'_> {
    ghost use Rattle.audit_jobs.specs.Meanings.{audit_meaning};

    ghost means = { λ work. audit_meaning work.net.now work.arr.now work.report.now };

    // The verdict on the report in a file, with the network and the arrivals in the others.
    fn make<S: Shelf>(&self, alloc: Global, shelf: &mut S) -> Result<Made, Refusal> {
        let SceneWith {
            scene,
            value: sheet,
        } = fetch_scene_with::<SheetFile, S>(alloc, shelf, self.net, self.arr, self.report)?;
        let made = verdict(alloc, &scene.network, &scene.arrivals, sheet)?;
        Ok(made)
    }
}

/// The command `audit NET ARR REPORT`: writes the verdict on what a report says, whoever wrote it: that its greens are lawful and
/// its totals are what the world shows under them, or the first reason why it is rejected. Under the greens of a report that is
/// accepted the network is safe.
///
/// Each status has its cause, and each refusal writes its line to `err`, as `signal` says.
///
/// docs/FORMATS.md, "Words".
pub fn audit_job<S: Shelf, O: Sink, E: Sink>(
    alloc: Global,
    net: &str,
    arr: &str,
    report: &str,
    shelf: &mut S,
    out: &mut O,
    err: &mut E,
) -> Status
    ensures { Outcome (audit_meaning net.now arr.now report.now)
        (record { shelf = S.state shelf.old; out = O.state out.old; err = E.state err.old })
        (record { shelf = S.state shelf.new; out = O.state out.new; err = E.state err.new }) result }
{
    let work = AuditWork { net, arr, report };
    job(alloc, &work, shelf, out, err)
}
