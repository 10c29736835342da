//! Codes of faults of an instance and of its text.

use crate::{InstanceFault, TextFault};
use std::alloc::AllocError;
use text_lines::{Fault, push_one, push_two};

impl Fault for InstanceFault {
    ghost use Rattle.schedule_meaning.specs.Codes.{instance_code};

    ghost code = { instance_code };

    fn push_code(self, line: &mut Vec<u8>) -> Result<(), AllocError> {
        match self {
            InstanceFault::HeadPhase => line.extend_from_slice(b"head phase"),
            InstanceFault::HeadTime => line.extend_from_slice(b"head time"),
            InstanceFault::ListCount => line.extend_from_slice(b"lists"),
            InstanceFault::ClusterBound { phase, place } => {
                push_two(line, b"cluster ", u64::from(phase), u64::from(place))
            }
            InstanceFault::Order { phase, place } => {
                push_two(line, b"order ", u64::from(phase), u64::from(place))
            }
            InstanceFault::Many => line.extend_from_slice(b"many"),
        }
    }
}

impl Fault for TextFault {
    ghost use Rattle.std.specs.Prelude.{◌≢◌};
    ghost use Rattle.schedule_meaning.specs.Codes.{text_code};
    ghost use Rattle.schedule_meaning.specs.declared.texts.TextFault.TheVariants.{NoMemory};

    ghost code = { text_code };

    ghost is_of_text = { λ fault. fault ≢ NoMemory };

    fn push_code(self, line: &mut Vec<u8>) -> Result<(), AllocError> {
        match self {
            TextFault::Line(number) => push_one(line, b"line ", u64::from(number)),
            TextFault::Plan(fault) => fault.push_code(line),
            TextFault::Instance(fault) => fault.push_code(line),
            TextFault::NoMemory => Err(AllocError),
        }
    }
}
