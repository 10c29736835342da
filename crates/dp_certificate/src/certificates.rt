//! Certificates: their bounds, the order of their entries, and why parts make none.

ghost use Rattle.std.specs.Prelude.{◌≡◌, ◌+◌, ◌^◌, ◌<◌, ◌≤◌, ◌↔◌, ℕ, All, length, slice_index, IfNone, IfSome, IsTrue, false};
ghost use Rattle.switch_rules.specs.Serving.{IsHead};
ghost use Rattle.schedule_meaning.specs.Instances.{list_at};
ghost use Rattle.dp_certificate.specs.{Certificates.AreRising, Certificates.IsEntry, Certificates.head_of, Faults.IsFirstLow, Faults.IsFirstOut, Numbers.AreLengths};

use super::Entry;
use foundation::threads::CrossesThreads;
use schedule_meaning::{Answer, Instance};
use std::marker::Model;
use switch_rules::{GREATEST_DELAY, LATEST_TIME};

/// An instance, an answer, and entries that are to prove the answer: each within its bounds, and sorted by their keys.
/// Contracts see it as a `Claim`.
///
/// docs/RULES.md, "Certificate".
#[derive(Drop)]
pub struct Certificate {
    instance: Instance,
    entries: Vec<Entry>,
    answer: Answer,
}

impl Model for Certificate {
    ghost use Rattle.std.specs.Prelude.{◌≡◌};
    ghost use Rattle.dp_certificate.specs.{Certificates.Claim, Certificates.IsCertificate, Numbers.IsNumbered};

    ghost Value = { Claim };

    ghost view = { λ c. record { problem = c.instance; entries = c.entries.items; answer = c.answer } };

    ghost invariant = { λ c. IsCertificate (record { problem = c.instance; entries = c.entries.items; answer = c.answer })
        × IsNumbered (record { problem = c.instance; entries = c.entries.items; answer = c.answer }) };
}

impl CrossesThreads for Certificate {}

/// Why an instance, entries and an answer are no certificate. Entries are numbered from 1.
///
/// docs/RULES.md, "Certificate".
#[derive(Debug, Clone, Copy, PartialEq, Eq)]
pub enum CertFault {
    /// The first entry that is out of its bounds.
    Entry(u32),
    /// The first entry whose key is not above the key before it.
    Order(u32),
}

impl Certificate {
    ghost use Rattle.std.specs.Prelude.{◌≡◌, ◌^◌, ◌<◌, IfOk, IfErr, OnErr, length, vec_len};
    ghost use Rattle.dp_certificate.specs.{Certificates.IsCertificate, Faults.IsCertFault, Numbers.IsNumbered, Numbers.IsShort};

    /// The certificate of these parts, where each entry is within its bounds and their keys rise. The fault is the
    /// first entry out of its bounds, or else the first whose key is not above the key before it. There are fewer than
    /// 2^32 entries, and fewer than 2^32 numbers in the sequence of the answer. It takes no memory.
    ///
    /// docs/RULES.md, "Certificate".
    pub fn new(
        instance: Instance,
        entries: Vec<Entry>,
        answer: Answer,
    ) -> Result<Certificate, CertFault>
        requires few { vec_len entries < 2 ^ 32 }
        requires short { IsShort answer }
        ensures ok { IfOk result (λ c. (c ≡ record { problem = instance; entries = entries.items; answer = answer })
            × IsCertificate c) }
        ensures refused { OnErr result (¬ IsCertificate (record {
          problem = instance;
          entries = entries.items;
          answer = answer;
        })) }
        ensures first { IfErr result (IsCertFault (record {
          problem = instance;
          entries = entries.items;
          answer = answer;
        })) }
    {
        if let Some(index) = first_out_of_bounds(&instance, entries.as_slice()) {
            return Err(CertFault::Entry(index as u32 + 1));
        }
        if let Some(index) = first_low(entries.as_slice()) {
            return Err(CertFault::Order(index as u32 + 1));
        }
        Ok(Certificate {
            instance,
            entries,
            answer,
        })
    }

    /// The certificate of these parts, of which it is known that they are one: `new` without its tests. There are
    /// fewer than 2^32 entries, and fewer than 2^32 numbers in the sequence of the answer. It takes no memory.
    ///
    /// docs/RULES.md, "Certificate".
    pub fn of_lawful(instance: Instance, entries: Vec<Entry>, answer: Answer) -> Certificate
        requires lawful { IsCertificate (record { problem = instance; entries = entries.items; answer = answer }) }
        requires few { vec_len entries < 2 ^ 32 }
        requires short { IsShort answer }
        ensures { result ≡ record { problem = instance; entries = entries.items; answer = answer } }
    {
        Certificate {
            instance,
            entries,
            answer,
        }
    }

    /// The instance that the answer is for.
    ///
    /// docs/RULES.md, "Certificate".
    pub fn instance(&self) -> &Instance
        ensures { result.now ≡ self.now.problem }
    {
        &self.instance
    }

    /// The entries, in the order of their keys; fewer than 2^32.
    ///
    /// docs/RULES.md, "Certificate".
    pub fn entries(&self) -> &[Entry]
        ensures value { result.now ≡ self.now.entries }
        ensures certificate { IsCertificate self.now }
        ensures numbered { IsNumbered self.now }
    {
        self.entries.as_slice()
    }

    /// The answer that the entries are to prove.
    ///
    /// docs/RULES.md, "Certificate".
    pub fn answer(&self) -> &Answer
        ensures value { result.now ≡ self.now.answer }
        ensures short { IsShort self.now.answer }
    {
        &self.answer
    }
}

/// The index of the first entry that is out of its bounds.
fn first_out_of_bounds(i: &Instance, entries: &[Entry]) -> Option<usize>
    ensures none { IfNone result (All (IsEntry i.now) entries.now) }
    ensures some { IfSome result (IsFirstOut i.now entries.now) }
{
    let lengths = list_lengths(i);
    entries
        .iter()
        .position(|entry| !is_in_bounds(i, &lengths, entry))
}

/// How many clusters each of four phases has; none where a phase is past the last.
///
/// docs/RULES.md, "Table".
pub fn list_lengths(i: &Instance) -> [u8; 4]
    ensures { AreLengths i.now.lists result }
{
    let mut lengths = [0; 4];
    for phase in 0..i.plan().count() {
        lengths[phase as usize] = i.list(phase).len() as u8;
    }
    lengths
}

/// Whether an entry is within its bounds, given how many clusters each phase has.
fn is_in_bounds(i: &Instance, lengths: &[u8; 4], entry: &Entry) -> bool
    requires { AreLengths i.now.lists lengths.now }
    ensures { IsTrue result ↔ IsEntry i.now entry.now }
{
    if entry.at > LATEST_TIME || entry.delay > GREATEST_DELAY {
        return false;
    }
    is_head(i, entry) && are_counts(lengths, &entry.counts)
}

/// Whether the phase of an entry exists, and its time is within the greatest green.
fn is_head(i: &Instance, entry: &Entry) -> bool
    ensures { IsTrue result ↔ IsHead i.now.plan (head_of entry.now false) }
{
    if entry.phase >= i.plan().count() || entry.at < entry.since {
        return false;
    }
    entry.at - entry.since <= i.plan().phase(entry.phase).greatest
}

/// Whether no count is above the one of the same phase.
fn are_counts(lengths: &[u8; 4], counts: &[u8; 4]) -> bool
    ensures { IsTrue result ↔ ((k : ℕ) → slice_index counts.now k ≤ slice_index lengths.now k) }
{
    let [first, second, third, fourth] = *lengths;
    counts[0] <= first && counts[1] <= second && counts[2] <= third && counts[3] <= fourth
}

/// The index of the first entry whose key is not above the key before it.
fn first_low(entries: &[Entry]) -> Option<usize>
    ensures none { IfNone result (AreRising entries.now) }
    ensures some { IfSome result (IsFirstLow entries.now) }
{
    for index in 1..entries.len() {
        if !entries[index - 1].is_before(&entries[index]) {
            return Some(index);
        }
    }
    None
}
