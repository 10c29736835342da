//! Checks whether the entries of a certificate prove its answer. A certificate that is accepted proves that its answer
//! is the least, whoever made it.
#![tactic(auto)]

mod hints;
mod search;
mod walk;

ghost use Rattle.std.specs.Prelude.{◌≡◌, ◌+◌, ◌*◌, ◌≤◌, ◌↔◌, IfNone, IfSome, IsTrue, length};
ghost use Rattle.schedule_meaning.specs.{Best.IsBest, Best.IsLeast, declared.planners.Answer.Answer};
ghost use Rattle.dp_certificate.specs.{Numbers.answered_delay, Numbers.sequence_of, Proves.HasRoot, Proves.IsPlanned, Proves.Proves};
ghost use Rattle.cert_checker.specs.Verdicts.{IfRejected, IsWhy};

use dp_certificate::{Certificate, Entry};
use foundation::steps::Steps;
use foundation::threads::CrossesThreads;
use schedule_meaning::{Answer, SeqFault, replay};
use search::has_entry;
use std::sync::ledger::Ledger;
use walk::{first_cheaper, first_open};

/// Why a certificate does not prove its answer: the first that is so, in this order. Entries are numbered from 1.
///
/// docs/RULES.md, "Certificate".
#[derive(Debug, Clone, Copy, PartialEq, Eq)]
pub enum Why {
    /// The claimed sequence is not feasible, with its first fault.
    Sequence(SeqFault),
    /// The claimed sequence is feasible, but not with the claimed delay; in thousandths of a vehicle times weight times seconds.
    Delay { said: u64, is: u64 },
    /// No entry has the key of the start with no delay.
    NoRoot,
    /// The first entry after which something can be served next that has the key of no entry with as little delay, and is not
    /// too dear, and the least phase of which it can.
    Open { entry: u32, phase: u8 },
    /// The first entry after which nothing is left, and which undercuts the answer.
    Cheaper { entry: u32 },
}

impl CrossesThreads for Why {}

/// Whether a certificate proves its answer.
///
/// docs/RULES.md, "Certificate".
#[derive(Debug, Clone, Copy, PartialEq, Eq)]
pub enum Verdict {
    /// It does: the answer is the least.
    Accepted,
    /// It does not; the answer may be the least all the same.
    Rejected(Why),
}

impl CrossesThreads for Verdict {}

/// Whether the entries of a certificate prove its answer, in at most one step for each phase of each entry and each
/// place of the claimed sequence. It takes no memory. The delay of an accepted answer is that of the best answer, and it is
/// no plan exactly where the best answer is none.
///
/// docs/RULES.md, "Certificate".
pub fn check<L: Ledger>(c: &Certificate, steps: &mut Steps<L>) -> Verdict
    ensures accepted { result ≡ Verdict.Accepted ↔ Proves c.now }
    ensures least { result ≡ Verdict.Accepted → IsLeast c.now.problem c.now.answer }
    ensures best { result ≡ Verdict.Accepted → (a : Answer) → IsBest c.now.problem a
        → answered_delay c.now.answer ≡ answered_delay a }
    ensures first { IfRejected result (IsWhy c.now) }
    ensures steps { steps.new ≤ steps.old + length c.now.problem.plan * length c.now.entries
        + length (sequence_of c.now.answer) }
{
    if let Some(why) = claim_fault(c, steps) {
        return Verdict::Rejected(why);
    }
    if !has_root(c) {
        return Verdict::Rejected(Why::NoRoot);
    }
    if let Some((entry, phase)) = first_open(c, steps) {
        return Verdict::Rejected(Why::Open { entry, phase });
    }
    if let Some(entry) = first_cheaper(c) {
        return Verdict::Rejected(Why::Cheaper { entry });
    }
    Verdict::Accepted
}

/// Why the claimed plan is not what is claimed.
fn claim_fault<L: Ledger>(c: &Certificate, steps: &mut Steps<L>) -> Option<Why>
    ensures none { IfNone result (IsPlanned c.now.problem c.now.answer) }
    ensures some { IfSome result (λ why. IsWhy c.now why × ¬ IsPlanned c.now.problem c.now.answer) }
    ensures steps { steps.new ≤ steps.old + length (sequence_of c.now.answer) }
{
    let Answer::Plan { sequence, delay } = c.answer() else {
        return None;
    };
    match replay(c.instance(), sequence.as_slice(), steps) {
        Err(fault) => Some(Why::Sequence(fault)),
        Ok(timed) => {
            if timed.delay == *delay {
                return None;
            }
            Some(Why::Delay {
                said: *delay,
                is: timed.delay,
            })
        }
    }
}

/// Whether the start is an entry, with no delay.
fn has_root(c: &Certificate) -> bool
    ensures { IsTrue result ↔ HasRoot c.now }
{
    let start = c.instance().head();
    let root = Entry {
        counts: [0; 4],
        phase: start.phase,
        since: start.since,
        at: start.at,
        delay: 0,
    };
    has_entry(c.entries(), &root, &mut 0)
}
