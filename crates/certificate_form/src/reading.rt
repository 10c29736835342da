//! Reading a certificate's text.

ghost use Rattle.std.specs.Prelude.{◌≡◌, ◌+◌, ◌^◌, ◌<◌, ◌≤◌, length, IfErr, IfOk, MatchResult};
ghost use Rattle.phase_plan.specs.declared.Marks.{Marks};
ghost use Rattle.instance_form.specs.Answers as form;
ghost use Rattle.instance_form.specs.{Lines.seen, Reading.Gives};
ghost use Rattle.certificate_form.specs.{Answers.IsFormText, Answers.IsTextFault, Answers.IsOutOfMemory, Answers.claim_of_lines, CertificateText.HasText, CertificateText.certificate_text, Reading.answer_at, Reading.end_at, Reading.plan_at};
ghost use Rattle.certificate_form.specs.{Reading.sequence_at, Reading.tail_at, TextFaults.IsLineFault};
ghost use Rattle.dp_certificate.specs.{Certificates.Claim, Certificates.IsCertificate, Numbers.IsShort};

use crate::lines::{entry_lines, spaced_numbers};
use dp_certificate::{CertFault, Certificate, Entry};
use foundation::items::Items;
use instance_form::{Form, FormFault, read_front};
use phase_plan::PlanFault;
use schedule_meaning::{Answer, Instance, InstanceFault, plan_where};
use std::alloc::Global;
use text_lines::{field_u8, field_u64, literal};

/// Why a text is no certificate's.
///
/// docs/FORMATS.md, "Certificate text".
#[derive(Debug, Clone, Copy, PartialEq, Eq)]
pub enum CertText {
    /// The first line, from 1, that has not the form of its place.
    Line(u32),
    /// The lines have their form, and their phases are no plan.
    Plan(PlanFault),
    /// The phases are a plan, and with the head and the clusters they make no instance.
    Instance(InstanceFault),
    /// There is an instance, and with the answer and the entries it makes no certificate.
    Cert(CertFault),
    /// Memory ran out.
    NoMemory,
}

impl From<FormFault> for CertText {
    ghost use Rattle.std.specs.Prelude.{◌≡◌};
    ghost use Rattle.certificate_form.specs.Answers.{of_form};

    ghost from_gives = { λ fault e. e ≡ of_form fault };

    fn from(fault: FormFault) -> CertText {
        match fault {
            FormFault::Line(line) => CertText::Line(line),
            FormFault::NoMemory => CertText::NoMemory,
        }
    }
}

/// What the lines of a certificate's text say.
#[derive(Drop)]
struct Lines {
    form: Form,
    answer: Answer,
    entries: Vec<Entry>,
}

/// The certificate whose one text the bytes are, fewer than 2^32 of them.
///
/// A fault other than out of memory comes only where the bytes are the text of no certificate: the first line that
/// has not its form, or else the fault of the plan, or else that of the instance, or else that of the certificate.
///
/// docs/FORMATS.md, "Certificate text".
pub fn read_certificate(alloc: Global, bytes: &[u8]) -> Result<Certificate, CertText>
    requires { length bytes.now < 2 ^ 32 }
    ensures ok { IfOk result (λ c. bytes.now ≡ certificate_text c) }
    ensures text { IfOk result HasText }
    ensures lawful { IfOk result IsCertificate }
    ensures only { (c : Claim) → HasText c → IsCertificate c → bytes.now ≡ certificate_text c
        → MatchResult result (λ v. v ≡ c) IsOutOfMemory }
    ensures first { IfErr result (IsTextFault bytes.now) }
{
    let Lines {
        form,
        answer,
        entries,
    } = read_lines(alloc, bytes)?;
    let plan = match plan_where(form.marks, form.phases) {
        Ok(plan) => plan,
        Err(fault) => return Err(CertText::Plan(fault)),
    };
    let instance = match Instance::new(plan, form.head, form.lists) {
        Ok(instance) => instance,
        Err(fault) => return Err(CertText::Instance(fault)),
    };
    match Certificate::new(instance, entries, answer) {
        Ok(certificate) => Ok(certificate),
        Err(fault) => Err(CertText::Cert(fault)),
    }
}

/// No two certificates share a text.
///
/// docs/FORMATS.md, "Certificate text".
pub fn law_of_certificates()
    ensures { (c d : Claim) → HasText c → HasText d → certificate_text c ≡ certificate_text d → c ≡ d }
{}

/// What the lines of a certificate's text say.
fn read_lines(alloc: Global, bytes: &[u8]) -> Result<Lines, FormFault>
    requires { length bytes.now < 2 ^ 32 }
    ensures ok { IfOk result (λ x. IsFormText bytes.now x.form.marks (claim_of_lines x)) }
    ensures only { (marks : Marks) (c : Claim) → IsFormText bytes.now marks c
        → MatchResult result (λ x. (x.form.marks ≡ marks) × (claim_of_lines x ≡ c)) form.IsOutOfMemory }
    ensures first { IfErr result (IsLineFault bytes.now) }
    ensures short { IfOk result (λ x. IsShort x.answer) }
    ensures few { IfOk result (λ x. length x.entries.items < 2 ^ 32) }
{
    let rest = literal("certificate 1\n", bytes).ok_or(FormFault::Line(1))?;
    let (form, line, rest) = read_front(alloc, 2, rest)?;
    let phases = form.phases.len() as u8;
    let (answer, entries) = tail(alloc, phases, line, rest)?;
    Ok(Lines {
        form,
        answer,
        entries,
    })
}

/// The numbers up to the end of the line with this number, one at least, and the bytes after it.
#[tactic(auto, unfolding(crate::specs::Reading::sequence_at))]
fn sequence(alloc: Global, line: u32, bytes: &[u8]) -> Result<(Vec<u8>, &[u8]), FormFault>
    ensures exact { Gives (λ x. (x.0.items, x.1.now)) result (sequence_at line bytes.now) }
    ensures few { IfOk result (λ x. length x.0.items + length x.1.now ≤ length bytes.now) }
{
    let (mut numbers, rest) = spaced_numbers(alloc, bytes)?;
    let (last, rest) = field_u8(b'\n', rest).ok_or(FormFault::Line(line))?;
    numbers.push(last)?;
    Ok((numbers, rest))
}

/// The delay and the sequence of a plan in the line with this number, and the bytes after it.
#[tactic(auto, unfolding(crate::specs::Reading::plan_at))]
fn plan(alloc: Global, line: u32, bytes: &[u8]) -> Result<(Answer, &[u8]), FormFault>
    requires { length bytes.now < 2 ^ 32 }
    ensures exact { Gives seen result (plan_at line bytes.now) }
    ensures shorter { IfOk result (λ x. length x.1.now < length bytes.now) }
    ensures short { IfOk result (λ x. IsShort x.0) }
{
    if let Some((delay, rest)) = field_u64(b'\n', bytes) {
        let sequence = Items::from_vec(Vec::new(alloc));
        return Ok((Answer::Plan { sequence, delay }, rest));
    }
    let (delay, rest) = field_u64(b' ', bytes).ok_or(FormFault::Line(line))?;
    let (numbers, rest) = sequence(alloc, line, rest)?;
    let sequence = Items::from_vec(numbers);
    Ok((Answer::Plan { sequence, delay }, rest))
}

/// The answer in the line with this number, and the bytes after it.
#[tactic(auto, unfolding(crate::specs::Reading::answer_at))]
fn answer(alloc: Global, line: u32, bytes: &[u8]) -> Result<(Answer, &[u8]), FormFault>
    requires { length bytes.now < 2 ^ 32 }
    ensures exact { Gives seen result (answer_at line bytes.now) }
    ensures shorter { IfOk result (λ x. length x.1.now + 7 < length bytes.now) }
    ensures short { IfOk result (λ x. IsShort x.0) }
{
    if let Some(rest) = literal("answer none\n", bytes) {
        return Ok((Answer::NoPlan, rest));
    }
    let rest = literal("answer ", bytes).ok_or(FormFault::Line(line))?;
    plan(alloc, line, rest)
}

/// Nothing after the last line, which has this number.
#[tactic(auto, unfolding(crate::specs::Reading::end_at))]
fn end(line: u32, bytes: &[u8]) -> Result<&[u8], FormFault>
    requires { line + length bytes.now ≤ 2 ^ 32 }
    ensures { Gives (λ x. x.now) result (end_at line bytes.now) }
{
    let rest = literal("end\n", bytes).ok_or(FormFault::Line(line))?;
    if rest.is_empty() {
        Ok(rest)
    } else {
        Err(FormFault::Line(line + 1))
    }
}

/// The answer and the entries after an instance with this many phases, the answer in the line with this number.
#[tactic(auto, unfolding(crate::specs::Reading::tail_at))]
fn tail(
    alloc: Global,
    phases: u8,
    line: u32,
    bytes: &[u8],
) -> Result<(Answer, Vec<Entry>), FormFault>
    requires few { length bytes.now < 2 ^ 32 }
    requires room { line + length bytes.now ≤ 2 ^ 32 }
    ensures exact { Gives (λ x. (x.0, x.1.items)) result (tail_at phases line bytes.now) }
    ensures short { IfOk result (λ x. IsShort x.0) }
    ensures few { IfOk result (λ x. length x.1.items < 2 ^ 32) }
{
    let (answer, rest) = answer(alloc, line, bytes)?;
    let (entries, rest) = entry_lines(alloc, phases, rest)?;
    end(line + 1 + entries.len() as u32, rest)?;
    Ok((answer, entries))
}
