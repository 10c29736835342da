//! Reading an instance's text.

ghost use Rattle.std.specs.Prelude.{◌≡◌, ◌+◌, ◌^◌, ◌<◌, ◌≤◌, ℕ, List, ◌++◌, length, codes, IfOk, IfErr, MatchResult};
ghost use Rattle.phase_plan.specs.declared.{Marks.Marks, Phase.Phase};
ghost use Rattle.switch_rules.specs.{declared.Cluster.Cluster, declared.Head.Head};
ghost use Rattle.instance_form.specs.{Answers.HasParts, Answers.IsOutOfMemory, Answers.IsWritableForm, Answers.text_of, Faults.BeginsText, Faults.BeginsFront, Faults.IsFaultOf, InstanceText.HasText, InstanceText.IsMarkedWhere};
ghost use Rattle.instance_form.specs.{InstanceText.whole_text, InstanceText.line_count, Lines.seen, Lines.head_line_at, Reading.Gives, Reading.parts_of, Reading.opening_at, Reading.plan_at, Reading.closing_at, Reading.form_at};
ghost use Rattle.instance_form.specs.{Reading.can_be_all, Reading.may_end};
ghost use Rattle.std.specs.Option.{ok_or};

use crate::form::{Form, FormFault, Version};
use crate::lines::{count_line, head_line, version_line};
use crate::lists::{lists, phases};
use crate::versions::{has_loads, has_marks, marks_said};
use foundation::items::Items;
use phase_plan::Phase;
use std::alloc::Global;
use switch_rules::{Cluster, Head};
use text_lines::literal;

/// The version and the number of phases, 2 to 4, that the first two lines say, and the bytes after them. The first line
/// has this number.
#[tactic(auto, unfolding(crate::specs::Reading::opening_at))]
fn opening(line: u32, bytes: &[u8]) -> Result<(Version, u8, &[u8]), FormFault>
    requires { line + length bytes.now ≤ 2 ^ 32 }
    ensures exact { Gives (λ x. (x.0, x.1, x.2.now)) result (opening_at line bytes.now) }
    ensures bounds { IfOk result (λ x. (2 ≤ x.1) × (x.1 ≤ 4)) }
    ensures shorter { IfOk result (λ x. length x.2.now + 11 < length bytes.now) }
{
    let (version, rest) = version_line(bytes).ok_or(FormFault::Line(line))?;
    let (count, rest) = count_line(rest).ok_or(FormFault::Line(line + 1))?;
    Ok((version, count, rest))
}

/// All phases, of which there are this many, the first in the line with this number, and the bytes after them.
#[tactic(auto, unfolding(crate::specs::Reading::plan_at))]
fn plan(
    alloc: Global,
    version: Version,
    count: u8,
    line: u32,
    bytes: &[u8],
) -> Result<(Vec<Phase>, &[u8]), FormFault>
    requires some { 0 < count }
    requires room { line + count < 2 ^ 32 }
    ensures exact { Gives (λ x. (x.0.items, x.1.now)) result (plan_at version count line bytes.now) }
    ensures shorter { IfOk result (λ x. length x.1.now ≤ length bytes.now) }
{
    let (phases, rest) = phases(alloc, version, count, line, bytes)?;
    if can_be_all(version, &phases) {
        Ok((phases, rest))
    } else {
        Err(FormFault::Line(line + u32::from(count) - 1))
    }
}

/// Whether these can be all phases of a text: in version 2 one of them is marked.
fn can_be_all(version: Version, phases: &[Phase]) -> bool
    ensures { result ≡ can_be_all version phases.now }
{
    match version {
        Version::One | Version::Three | Version::Four | Version::Five => true,
        Version::Two => has_marks(phases),
    }
}

/// The head in the line with this number, and the bytes after it.
fn head(line: u32, bytes: &[u8]) -> Result<(Head, &[u8]), FormFault>
    ensures exact { Gives seen result (ok_or (head_line_at bytes.now) line) }
    ensures shorter { IfOk result (λ x. length x.1.now < length bytes.now) }
{
    head_line(bytes).ok_or(FormFault::Line(line))
}

/// The bytes after the last line, which has this number, where it may follow these lists.
#[tactic(auto, unfolding(crate::specs::Reading::closing_at))]
fn closing<'a>(
    version: Version,
    lists: &[Items<Cluster>],
    line: u32,
    bytes: &'a [u8],
) -> Result<&'a [u8], FormFault>
    ensures exact { Gives (λ x. x.now) result (closing_at version lists.now line bytes.now) }
    ensures shorter { IfOk result (λ x. length x.now < length bytes.now) }
{
    if may_end(version, lists) {
        literal("end\n", bytes).ok_or(FormFault::Line(line))
    } else {
        Err(FormFault::Line(line))
    }
}

/// Whether a text may end after these lists: in version 3 some cluster has another load than its size.
fn may_end(version: Version, lists: &[Items<Cluster>]) -> bool
    ensures { result ≡ may_end version lists.now }
{
    match version {
        Version::One | Version::Two | Version::Four | Version::Five => true,
        Version::Three => has_loads(lists),
    }
}

/// The text at the front, whose first line has this number, the number of the line after it, and the bytes from there.
#[tactic(auto, unfolding(crate::specs::Reading::form_at))]
fn form_front(alloc: Global, line: u32, bytes: &[u8]) -> Result<(Form, u32, &[u8]), FormFault>
    requires { line + length bytes.now ≤ 2 ^ 32 }
    ensures { Gives (λ x. (parts_of x.0, x.1, x.2.now)) result (form_at line bytes.now) }
{
    let (version, count, rest) = opening(line, bytes)?;
    let (phases, rest) = plan(alloc, version, count, line + 2, rest)?;
    let line = line + 2 + u32::from(count);
    let (head, rest) = head(line, rest)?;
    let (lists, clusters, rest) = lists(alloc, version, count, rest)?;
    let line = line + 1 + clusters;
    let rest = closing(version, &lists, line, rest)?;
    let form = Form {
        marks: marks_said(version),
        phases,
        head,
        lists,
    };
    Ok((form, line + 1, rest))
}

/// The form whose text stands at the front of the bytes, the number of the line after it, and the bytes from there. The
/// text's first line has the number `line`, which is at most 2^32 less the number of bytes.
///
/// A fault `Line` comes only where no text of a form that has one stands at the front.
///
/// docs/FORMATS.md, "Instance text".
pub fn read_front(alloc: Global, line: u32, bytes: &[u8]) -> Result<(Form, u32, &[u8]), FormFault>
    requires { line + length bytes.now ≤ 2 ^ 32 }
    ensures ok { IfOk result (λ x. IsWritableForm x.0 × (bytes.now ≡ text_of x.0 ++ x.2.now)) }
    ensures next { IfOk result (λ x. x.1 ≡ line + line_count x.0.phases.items x.0.lists.items) }
    ensures only { (marks : Marks) (plan : List Phase) (h : Head) (lists : List (List Cluster)) (rest : List ℕ)
        → HasText plan h lists → IsMarkedWhere marks plan → bytes.now ≡ whole_text marks plan h lists ++ rest
        → MatchResult result (λ x. HasParts x.0 marks plan h lists × (x.2.now ≡ rest)) IsOutOfMemory }
    ensures first { IfErr result (IsFaultOf BeginsFront line bytes.now) }
{
    form_front(alloc, line, bytes)
}

/// The form whose text the bytes are, fewer than 2^32 of them.
///
/// A fault `Line` comes only where the bytes are the text of no form that has one.
///
/// docs/FORMATS.md, "Instance text".
pub fn read_form(alloc: Global, bytes: &[u8]) -> Result<Form, FormFault>
    requires { length bytes.now < 2 ^ 32 }
    ensures ok { IfOk result (λ form. IsWritableForm form × (bytes.now ≡ text_of form)) }
    ensures only { (marks : Marks) (plan : List Phase) (h : Head) (lists : List (List Cluster))
        → HasText plan h lists → IsMarkedWhere marks plan → bytes.now ≡ whole_text marks plan h lists
        → MatchResult result (λ form. HasParts form marks plan h lists) IsOutOfMemory }
    ensures first { IfErr result (IsFaultOf BeginsText 1 bytes.now) }
{
    let (form, line, rest) = read_front(alloc, 1, bytes)?;
    if rest.is_empty() {
        Ok(form)
    } else {
        Err(FormFault::Line(line))
    }
}

/// Each text is that of one form, and none begins another.
///
/// docs/FORMATS.md, "Instance text".
pub fn law_of_instance_texts()
    ensures { (marks theirs : Marks) (plan others : List Phase) (h g : Head)
        → (lists queues : List (List Cluster)) (x y : List ℕ)
        → HasText plan h lists → IsMarkedWhere marks plan → HasText others g queues → IsMarkedWhere theirs others
        → whole_text marks plan h lists ++ x ≡ whole_text theirs others g queues ++ y
        → (marks ≡ theirs) × (plan ≡ others) × (h ≡ g) × (lists ≡ queues) × (x ≡ y) }
{}
