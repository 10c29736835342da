//! The lines that `check` writes.
ghost use Rattle.std.specs.Prelude.{◌≡◌, ◌∷◌, ◌++◌, IfOk, OnOk};
ghost use Rattle.planner_jobs.specs.Verdicts.{rejected_line, sequence_text, unfit_name, why_text};

use cert_checker::Why;
use schedule_meaning::SeqFault;
use std::alloc::{AllocError, Global};
use switch_rules::Unfit;
use text_lines::{push_one, push_two};

/// The line that `check` writes for a certificate that does not prove its answer. `Err`: out of memory.
///
/// docs/FORMATS.md, "Verdict text".
pub fn rejected_line(alloc: Global, why: Why) -> Result<Vec<u8>, AllocError>
    ensures { IfOk result (λ line. line.items ≡ rejected_line why) }
{
    let mut line = Vec::from_slice(alloc, b"rejected ")?;
    push_why(&mut line, why)?;
    line.extend_from_slice(b"\n")?;
    Ok(line)
}

/// Writes why a certificate does not prove its answer.
fn push_why(text: &mut Vec<u8>, why: Why) -> Result<(), AllocError>
    ensures { OnOk result (text.new.items ≡ text.old.items ++ why_text why) }
{
    match why {
        Why::Sequence(fault) => {
            text.extend_from_slice(b"sequence ")?;
            push_sequence(text, fault)
        }
        Why::Delay { said, is } => push_two(text, b"delay ", said, is),
        Why::NoRoot => text.extend_from_slice(b"root"),
        Why::Open { entry, phase } => {
            push_two(text, b"open ", u64::from(entry), u64::from(phase))
        }
        Why::Cheaper { entry } => push_one(text, b"cheaper ", u64::from(entry)),
    }
}

/// Writes a fault of the claimed sequence.
fn push_sequence(text: &mut Vec<u8>, fault: SeqFault) -> Result<(), AllocError>
    ensures { OnOk result (text.new.items ≡ text.old.items ++ sequence_text fault) }
{
    match fault {
        SeqFault::Phase { place } => push_one(text, b"phase ", u64::from(place)),
        SeqFault::WrongCount(phase) => push_one(text, b"count ", u64::from(phase)),
        SeqFault::Unfit { place, why } => {
            push_one(text, b"unfit ", u64::from(place))?;
            text.extend_from_slice(unfit_name(why))
        }
    }
}

/// Why a serving is unfit, after a space.
fn unfit_name(why: Unfit) -> &'static [u8]
    ensures { result.now ≡ 32 ∷ unfit_name why }
{
    match why {
        Unfit::TooLong => b" long",
        Unfit::TooLate => b" late",
    }
}
