//! The text of an instance.

ghost use Rattle.std.specs.Prelude.{◌≡◌, ◌^◌, ◌<◌, IfOk, IfErr, OnErr, MatchResult, length, vec_len};
ghost use Rattle.instance_form.specs.InstanceText.{instance_text};
ghost use Rattle.schedule_meaning.specs.{Instances.Problem, Instances.IsInstance, Texts.IsTextFault, Texts.IsOutOfMemory, Texts.IsInstanceText, Texts.IsPlanWhere, Texts.IsPlanFaultWhere};

use super::faults::InstanceFault;
use super::instances::Instance;
use foundation::threads::CrossesThreads;
use instance_form::{FormFault, read_form, write_form};
use phase_plan::{Marks, Phase, PhasePlan, PlanFault};
use std::alloc::{AllocError, Global};

/// Why a text is no instance's.
///
/// docs/FORMATS.md, "Instance text".
#[derive(Debug, Clone, Copy, PartialEq, Eq)]
pub enum TextFault {
    /// The first line, from 1, that has not the form of its place.
    Line(u32),
    /// The lines have their form, and their phases are no plan.
    Plan(PlanFault),
    /// The phases are a plan, and with the head and the clusters they make no instance.
    Instance(InstanceFault),
    /// Memory ran out.
    NoMemory,
}

impl CrossesThreads for TextFault {}

impl From<FormFault> for TextFault {
    ghost use Rattle.std.specs.Prelude.{◌≡◌};
    ghost use Rattle.schedule_meaning.specs.Texts.{of_form};

    ghost from_gives = { λ fault e. e ≡ of_form fault };

    fn from(fault: FormFault) -> TextFault {
        match fault {
            FormFault::Line(line) => TextFault::Line(line),
            FormFault::NoMemory => TextFault::NoMemory,
        }
    }
}

/// The instance whose one text the bytes are, fewer than 2^32 of them.
///
/// A fault other than out of memory comes only where the bytes are the text of no instance: the
/// first line that has not its form, or else the fault of the plan, or else that of the instance.
///
/// docs/FORMATS.md, "Instance text".
pub fn read_instance(alloc: Global, bytes: &[u8]) -> Result<Instance, TextFault>
    requires { length bytes.now < 2 ^ 32 }
    ensures ok { IfOk result (λ i. bytes.now ≡ instance_text i.plan i.head i.lists) }
    ensures lawful { IfOk result IsInstance }
    ensures only { (p : Problem) → IsInstance p → bytes.now ≡ instance_text p.plan p.head p.lists
        → MatchResult result (λ i. i ≡ p) IsOutOfMemory }
    ensures first { IfErr result (IsTextFault bytes.now) }
{
    let form = read_form(alloc, bytes)?;
    let plan = match plan_where(form.marks, form.phases) {
        Ok(plan) => plan,
        Err(fault) => return Err(TextFault::Plan(fault)),
    };
    match Instance::new(plan, form.head, form.lists) {
        Ok(instance) => Ok(instance),
        Err(fault) => Err(TextFault::Instance(fault)),
    }
}

/// The plan of these phases, fewer than 2^32, of which so many are said to be marked.
///
/// The faults are those of `PhasePlan::new`; where all are said to be marked, those of `new_or_free`; where all but one are, those of
/// `new_of_one`.
///
/// docs/RULES.md, "Phases".
pub fn plan_where(marks: Marks, phases: Vec<Phase>) -> Result<PhasePlan, PlanFault>
    requires { vec_len phases < 2 ^ 32 }
    ensures ok { IfOk result (λ plan. (plan ≡ phases.items) × IsPlanWhere marks phases.items) }
    ensures refused { OnErr result (¬ IsPlanWhere marks phases.items) }
    ensures first { IfErr result (IsPlanFaultWhere marks phases.items) }
{
    match marks {
        Marks::Fewer => PhasePlan::new(phases),
        Marks::All => PhasePlan::new_or_free(phases),
        Marks::AllButOne => PhasePlan::new_of_one(phases),
    }
}

/// The one text of an instance, in fewer than 2^32 bytes, which `read_instance` reads as that instance. `Err`: out of
/// memory.
///
/// docs/FORMATS.md, "Instance text".
pub fn write_instance(alloc: Global, i: &Instance) -> Result<Vec<u8>, AllocError>
    ensures text { IfOk result (λ text. text.items ≡ instance_text i.now.plan i.now.head i.now.lists) }
    ensures lawful { IsInstance i.now }
    ensures is_text { IfOk result (λ text. IsInstanceText text.items i.now) }
    ensures short { IfOk result (λ text. length text.items < 2 ^ 32) }
{
    let plan = i.plan();
    write_form(alloc, plan.marks(), plan.phases(), &i.head(), i.lists())
}
