//! Walks along the entries: what can be served next after each, and which of them are at an end.

ghost use Rattle.std.specs.Prelude.{◌≡◌, ℕ, ◌+◌, ◌-◌, ◌*◌, ◌<◌, ◌≤◌, ◌↔◌, All, IfNone, IfSome, IsTrue, None, Some, length, slice_get, slice_index, take};
ghost use Rattle.std.specs.Option.{option_map};
ghost use Rattle.switch_rules.specs.Serving.{IsCluster};
ghost use Rattle.schedule_meaning.specs.Instances.{list_at};
ghost use Rattle.dp_certificate.specs.{Certificates.IsCertificate, Certificates.IsEntry, Certificates.entry_at, NextEntry.IsNext, NextEntry.stage_of_next, Prefixes.stage_after, Proves.IsClosed, Proves.IsEnded, Proves.IsNoCheaper};
ghost use Rattle.dp_certificate.specs.{Proves.IsTooDear, Proves.stage_of_entry};
ghost use Rattle.cert_checker.specs.{Places.IsMet, Verdicts.IsFirstNot, Verdicts.IsOpenAt};

use super::hints::Hints;
use dp_certificate::{Certificate, Entry, is_all_served, next_after, rest_of};
use foundation::steps::Steps;
use schedule_meaning::{Answer, Instance};
use std::sync::ledger::Ledger;
use switch_rules::Cluster;

/// The number, from 1, of the first entry that is not closed, with the least phase at which it is not.
pub(crate) fn first_open<L: Ledger>(c: &Certificate, steps: &mut Steps<L>) -> Option<(u32, u8)>
    ensures none { IfNone result (All (IsClosed c.now) c.now.entries) }
    ensures some { IfSome result (λ found. IsFirstNot (IsClosed c.now) c.now.entries found.0) }
    ensures phase { IfSome result (λ found. IsOpenAt c.now (entry_at c.now.entries (found.0 - 1)) found.1) }
    ensures steps { steps.new ≤ steps.old + length c.now.problem.plan * length c.now.entries }
{
    let mut hints = Hints::new();
    for (index, entry) in c.entries().iter().enumerate() {
        hints.turn_to(c.entries(), &entry.counts);
        if let Some(phase) = open_phase(c, entry, &mut hints, steps) {
            return Some((index as u32 + 1, phase));
        }
    }
    None
}

/// The least phase of which the next cluster can be served after an entry, and leads to the key of no entry with as little delay and
/// not to what is too dear.
fn open_phase<L: Ledger>(
    c: &Certificate,
    entry: &Entry,
    hints: &mut Hints,
    steps: &mut Steps<L>,
) -> Option<u8>
    requires { IsEntry c.now.problem entry.now }
    ensures none { IfNone result (IsClosed c.now entry.now) }
    ensures some { IfSome result (λ k. IsOpenAt c.now entry.now k) }
    ensures steps { steps.new ≤ steps.old + length c.now.problem.plan }
{
    let i = c.instance();
    for phase in 0..i.plan().count() {
        let next = next_after(i, entry, phase, steps);
        if !is_closed_by(c, &next, hints) {
            return Some(phase);
        }
    }
    None
}

/// Whether what is served next, if anything, is an entry of no more delay, or too dear.
fn is_closed_by(c: &Certificate, next: &Option<Entry>, hints: &mut Hints) -> bool
    requires { IfSome next.now (IsNext c.now.problem) }
    ensures { IsTrue result ↔ IfSome next.now (IsMet c.now) }
{
    let Some(next) = next else {
        return true;
    };
    hints.has_entry(c.entries(), next) || is_too_dear(c, next)
}

/// Whether the clusters that are left after what is served next cost too much to undercut the claimed delay.
fn is_too_dear(c: &Certificate, next: &Entry) -> bool
    requires { IsNext c.now.problem next.now }
    ensures { IsTrue result ↔ IsTooDear c.now.problem c.now.answer (stage_of_next next.now) }
{
    let Answer::Plan { delay, .. } = c.answer() else {
        return false;
    };
    *delay <= next.delay + rest_of(c.instance(), &next.counts, next.at)
}

/// The number, from 1, of the first entry after which nothing is left, and which undercuts the answer.
pub(crate) fn first_cheaper(c: &Certificate) -> Option<u32>
    ensures none { IfNone result (All (IsEnded c.now) c.now.entries) }
    ensures some { IfSome result (IsFirstNot (IsEnded c.now) c.now.entries) }
    ensures certificate { IsCertificate c.now }
{
    for (index, entry) in c.entries().iter().enumerate() {
        if !is_ended(c, entry) {
            return Some(index as u32 + 1);
        }
    }
    None
}

/// Whether something is left after an entry, or it does not undercut the answer.
fn is_ended(c: &Certificate, entry: &Entry) -> bool
    requires { IsEntry c.now.problem entry.now }
    ensures { IsTrue result ↔ IsEnded c.now entry.now }
{
    !is_all_served(c.instance(), &entry.counts) || is_no_cheaper(c.answer(), entry)
}

/// Whether an entry does not undercut the answer.
fn is_no_cheaper(answer: &Answer, entry: &Entry) -> bool
    ensures { IsTrue result ↔ IsNoCheaper answer.now entry.now }
{
    match answer {
        Answer::Plan { delay, .. } => *delay <= entry.delay,
        Answer::NoPlan => false,
    }
}
