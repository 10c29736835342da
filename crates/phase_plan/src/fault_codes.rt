//! Codes of faults of the phases.
ghost use Rattle.std.specs.Prelude.{◌≡◌, ◌∷◌};
ghost use Rattle.phase_plan.specs.Codes.{field_name};

use crate::{Field, PlanFault};
use std::alloc::AllocError;
use text_lines::{Fault, push_one};

impl Fault for PlanFault {
    ghost use Rattle.phase_plan.specs.Codes.{plan_code};

    ghost code = { plan_code };

    fn push_code(self, line: &mut Vec<u8>) -> Result<(), AllocError> {
        match self {
            PlanFault::Count(_) => line.extend_from_slice(b"plan count"),
            PlanFault::Bound { phase, field } => {
                push_one(line, b"plan ", u64::from(phase))?;
                line.extend_from_slice(field_name(field))
            }
            PlanFault::Skips => line.extend_from_slice(b"plan skips"),
        }
    }
}

// The name of a time of a phase, after a space.
fn field_name(field: Field) -> &'static [u8]
    ensures { result.now ≡ 32 ∷ field_name field }
{
    match field {
        Field::Least => b" least",
        Field::Greatest => b" greatest",
        Field::Yellow => b" yellow",
        Field::Clear => b" clear",
        Field::Loss => b" loss",
        Field::Wait => b" wait",
    }
}
