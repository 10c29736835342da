//! Writing a certificate's text.

ghost use Rattle.std.specs.Prelude.{[], ◌≡◌, ◌+◌, ◌*◌, ◌++◌, ◌^◌, ◌<◌, ◌≤◌, All, codes, length, vec_capacity, vec_len, IfOk, IsErrOf, IsOk, IsSomeAnd, IsTrue, OnErr, OnOk};
ghost use Rattle.std.specs.List.{flat_map};
ghost use Rattle.instance_form.specs.InstanceText.{instance_text};
ghost use Rattle.instance_form.specs.InstanceText as form;
ghost use Rattle.dp_certificate.specs.{Certificates.IsCertificate, Numbers.sequence_of};
ghost use Rattle.certificate_form.specs.{Answers.IsCertificateText, CertificateText.HasText, CertificateText.IsWritableAnswer, CertificateText.after_space, CertificateText.answer_line, CertificateText.certificate_text};
ghost use Rattle.certificate_form.specs.{CertificateText.entry_back, CertificateText.entry_front, CertificateText.entry_line, Lengths.text_bytes};
ghost use Rattle.outside_world.specs.Sink.{Breaks, Gains};

use dp_certificate::{Certificate, Entry};
use outside_world::{Failed, Sink};
use schedule_meaning::{Answer, Instance, write_instance};
use std::alloc::{AllocError, Global};
use text_lines::{Line, push_number, push_numbers};

/// How many bytes the line of an entry has at the most; `specs/Lengths.antt` has it for contracts.
const ENTRY_BYTES: usize = 49;

/// How many entries a part has at the most.
const PART: usize = 512;

/// How many bytes a part of the lines of entries, and the last line, have at the most.
const PART_CAPACITY: usize = 106 * PART + 4;

/// The one text of a certificate, which `read_certificate` reads as that certificate where it has fewer than 2^32
/// bytes: 49 for each entry at the most, 4 for each place of the answer's sequence, and 3,500. `Err`: out of memory.
///
/// docs/FORMATS.md, "Certificate text".
#[tactic(auto, using(crate::proofs::WritingLaws::text_parts))]
pub fn write_certificate(alloc: Global, c: &Certificate) -> Result<Vec<u8>, AllocError>
    ensures text { IfOk result (λ text. text.items ≡ certificate_text c.now) }
    ensures lawful { IsCertificate c.now }
    ensures is_text { IfOk result (λ text. IsCertificateText text.items c.now) }
    ensures short { IfOk result (λ text. length text.items
        ≤ text_bytes (length c.now.entries) (length (sequence_of c.now.answer))) }
{
    let entries = c.entries();
    let phases = usize::from(c.instance().plan().count());
    let mut text = Vec::with_capacity(alloc, ENTRY_BYTES * entries.len() + 10_000)?;
    write_front(alloc, c.instance(), &mut text)?;
    write_tail(phases, c.answer(), entries, &mut text)?;
    Ok(text)
}

/// Why a certificate's text was not written whole.
///
/// docs/FORMATS.md, "Certificate text".
#[derive(Debug, Clone, Copy, PartialEq, Eq)]
pub enum PutFault {
    /// Memory ran out, and nothing was written.
    NoMemory,
    /// The sink failed, and a front of the text was written.
    Unwritten,
}

impl From<AllocError> for PutFault {
    ghost use Rattle.std.specs.Prelude.{◌≡◌};
    ghost use Rattle.certificate_form.specs.declared.writing.PutFault.TheVariants.{NoMemory};

    ghost from_gives = { λ _ fault. fault ≡ NoMemory };

    fn from(_: AllocError) -> PutFault {
        PutFault::NoMemory
    }
}

impl From<Failed> for PutFault {
    ghost use Rattle.std.specs.Prelude.{◌≡◌};
    ghost use Rattle.certificate_form.specs.declared.writing.PutFault.TheVariants.{Unwritten};

    ghost from_gives = { λ _ fault. fault ≡ Unwritten };

    fn from(_: Failed) -> PutFault {
        PutFault::Unwritten
    }
}

/// Writes the one text of a certificate to a sink, in parts. All memory that it takes, a buffer for one part and one
/// for the instance's lines, it takes before anything is written.
///
/// docs/FORMATS.md, "Certificate text".
#[tactic(auto, using(crate::proofs::WritingLaws::text_parts))]
pub fn put_certificate<O: Sink>(alloc: Global, c: &Certificate, out: &mut O) -> Result<(), PutFault>
    ensures ok { OnOk result (Gains (O.state out.old) (O.state out.new) (certificate_text c.now)) }
    ensures breaks { IsErrOf result PutFault.Unwritten
        → Breaks (O.state out.old) (O.state out.new) (certificate_text c.now) }
    ensures no_memory { IsErrOf result PutFault.NoMemory → O.state out.new ≡ O.state out.old }
{
    let phases = usize::from(c.instance().plan().count());
    let mut text = Vec::with_capacity(alloc, PART_CAPACITY + 10_000)?;
    write_front(alloc, c.instance(), &mut text)?;
    write_answer(&mut text, c.answer())?;
    text.reserve(PART_CAPACITY)?;
    put_rest(phases, c.entries(), &mut text, out)?;
    Ok(())
}

/// Each certificate has a text, of a few bytes for each of its entries and places.
///
/// docs/FORMATS.md, "Certificate text".
pub fn law_of_certificate_text(c: &Certificate)
    ensures lawful { IsCertificate c.now }
    ensures is_text { HasText c.now }
    ensures short { length (certificate_text c.now)
        ≤ text_bytes (length c.now.entries) (length (sequence_of c.now.answer)) }
{
    law_of_instance(c.instance());
    law_of_answer(c.answer());
    law_of_entries(c.entries());
}

/// The numbers of an instance are below their types' limits.
fn law_of_instance(i: &Instance)
    ensures { form.HasText i.now.plan i.now.head i.now.lists }
{
    let _ = i.plan();
}

/// The numbers of an answer are below their types' limits.
fn law_of_answer(answer: &Answer)
    ensures { IsWritableAnswer answer.now }
{
    if let Answer::Plan { sequence, delay } = answer {
        law_of_phases(sequence.as_slice());
        let _delay = *delay;
    }
}

/// Each phase is below its type's limit.
fn law_of_phases(sequence: &[u8])
    ensures { All (λ k. k < 2 ^ 8) sequence.now }
{}

/// Each entry has four counts. The loop does nothing when it runs.
fn law_of_entries(entries: &[Entry])
    ensures { All (λ e. length e.counts ≡ 4) entries.now }
{
    for entry in entries {
        law_of_counts(entry);
    }
}

/// An entry has four counts.
fn law_of_counts(entry: &Entry)
    ensures { length entry.now.counts ≡ 4 }
{
    let _ = entry.counts[0];
}

/// Writes a text and after it the lines of entries with this many counts, and the last line, to a sink, a part at a time.
fn put_rest<O: Sink>(
    phases: usize,
    entries: &[Entry],
    text: &mut Vec<u8>,
    out: &mut O,
) -> Result<(), Failed>
    requires phases { phases ≤ 4 }
    requires room { vec_len text.old + 54276 ≤ vec_capacity text.old }
    ensures ok { OnOk result (Gains (O.state out.old) (O.state out.new)
        (text.old.items ++ (flat_map (entry_line phases) entries.now ++ codes "end\n"))) }
    ensures breaks { OnErr result (Breaks (O.state out.old) (O.state out.new)
        (text.old.items ++ (flat_map (entry_line phases) entries.now ++ codes "end\n"))) }
{
    let mut left = entries;
    while left.len() > PART {
        let (part, rest) = left.split_at(PART);
        write_entries(text, phases, part).unwrap();
        out.put(text.as_slice())?;
        text.clear();
        left = rest;
    }
    write_entries(text, phases, left).unwrap();
    text.extend_from_slice(b"end\n").unwrap();
    out.put(text.as_slice())
}

/// Writes the first line, and an instance after it, into an empty text.
fn write_front(alloc: Global, i: &Instance, text: &mut Vec<u8>) -> Result<(), AllocError>
    requires { text.old.items ≡ [] }
    ensures text { OnOk result (text.new.items
        ≡ codes "certificate 1\n" ++ instance_text i.now.plan i.now.head i.now.lists) }
    ensures fits { OnOk result (form.HasText i.now.plan i.now.head i.now.lists) }
{
    let instance = write_instance(alloc, i)?;
    text.extend_from_slice(b"certificate 1\n")?;
    text.extend_from_slice(&instance)?;
    Ok(())
}

/// Writes the lines after an instance with this many phases.
fn write_tail(
    phases: usize,
    answer: &Answer,
    entries: &[Entry],
    text: &mut Vec<u8>,
) -> Result<(), AllocError>
    requires { phases ≤ 4 }
    ensures text { OnOk result (text.new.items
        ≡ text.old.items ++ (answer_line answer.now ++ (flat_map (entry_line phases) entries.now ++ codes "end\n"))) }
    ensures answer { OnOk result (IsWritableAnswer answer.now) }
    ensures places { OnOk result (All (λ e. length e.counts ≡ 4) entries.now) }
{
    write_answer(text, answer)?;
    write_entries(text, phases, entries)?;
    text.extend_from_slice(b"end\n")?;
    Ok(())
}

/// Appends the line of an answer to a text.
fn write_answer(text: &mut Vec<u8>, answer: &Answer) -> Result<(), AllocError>
    ensures text { OnOk result (text.new.items ≡ text.old.items ++ answer_line answer.now) }
    ensures fits { OnOk result (IsWritableAnswer answer.now) }
{
    match answer {
        Answer::NoPlan => text.extend_from_slice(b"answer none\n"),
        Answer::Plan { sequence, delay } => write_plan(text, sequence.as_slice(), *delay),
    }
}

/// Appends the line of a plan to a text.
fn write_plan(text: &mut Vec<u8>, sequence: &[u8], delay: u64) -> Result<(), AllocError>
    ensures text { OnOk result (text.new.items ≡ text.old.items ++ answer_line (Answer.Plan sequence.now delay)) }
    ensures fits { OnOk result (All (λ k. k < 2 ^ 8) sequence.now × (delay < 2 ^ 64)) }
{
    text.extend_from_slice(b"answer ")?;
    push_number(text, delay)?;
    push_numbers(text, sequence)?;
    text.extend_from_slice(b"\n")
}

/// Appends the lines of entries with this many counts to a text. Lines that follow one another with the same counts and
/// phase begin alike, so what they begin with is made once.
fn write_entries(text: &mut Vec<u8>, phases: usize, entries: &[Entry]) -> Result<(), AllocError>
    requires { phases ≤ 4 }
    ensures text { OnOk result (text.new.items ≡ text.old.items ++ flat_map (entry_line phases) entries.now) }
    ensures places { OnOk result (All (λ e. length e.counts ≡ 4) entries.now) }
    ensures capacity { vec_capacity text.old ≤ vec_capacity text.new }
    ensures succeeds { vec_len text.old + 106 * length entries.now ≤ vec_capacity text.old → IsOk result }
    ensures short { OnOk result (vec_len text.new ≤ vec_len text.old + 106 * length entries.now) }
{
    let mut front = Line::new();
    let mut back = Line::new();
    let mut last = None;
    for entry in entries {
        if !begins_like(last, entry) {
            put_front(&mut front, phases, entry);
            last = Some(*entry);
        }
        put_back(&mut back, entry);
        text.extend_from_slice(front.as_bytes())?;
        text.extend_from_slice(back.as_bytes())?;
    }
    Ok(())
}

/// Whether an entry has the counts and the phase of the last one, where there is one.
fn begins_like(last: Option<Entry>, entry: &Entry) -> bool
    ensures { IsTrue result → IsSomeAnd last (λ e. (e.counts ≡ entry.now.counts) × (e.phase ≡ entry.now.phase)) }
{
    match last {
        Some(last) => last.counts == entry.counts && last.phase == entry.phase,
        None => false,
    }
}

/// Makes the front of an entry's line with this many counts.
fn put_front(line: &mut Line, phases: usize, entry: &Entry)
    requires { phases ≤ 4 }
    ensures text { line.new ≡ entry_front phases entry.now }
    ensures short { length line.new ≤ 42 }
{
    line.clear();
    line.put_spaced(u64::from(entry.phase));
    put_counts(line, &entry.counts[..phases]);
    line.put_word(b"entry");
}

/// Makes what follows the front of an entry's line.
fn put_back(line: &mut Line, entry: &Entry)
    ensures text { line.new ≡ entry_back entry.now }
    ensures places { length entry.now.counts ≡ 4 }
    ensures short { length line.new ≤ 64 }
{
    line.clear();
    line.put_byte(b'\n');
    line.put_spaced(entry.delay);
    line.put_spaced(u64::from(entry.at));
    line.put_spaced(u64::from(entry.since));
}

/// Puts counts in front of a line, each after one space.
fn put_counts(line: &mut Line, counts: &[u8])
    requires few { length counts.now ≤ 4 }
    requires room { length line.old ≤ 100 }
    ensures text { line.new ≡ flat_map after_space counts.now ++ line.old }
    ensures room { length line.new ≤ length line.old + 16 }
{
    for place in (0..counts.len()).rev() {
        line.put_spaced(u64::from(counts[place]));
    }
}
