//! The text that `plan` writes.
ghost use Rattle.std.specs.Prelude.{◌≡◌, IfOk};
ghost use Rattle.planner_jobs.specs.Answers.{answer_text};

use schedule_meaning::Answer;
use std::alloc::{AllocError, Global};
use text_lines::{push_number, push_numbers};

/// The text that `plan` writes for an answer. `Err`: out of memory.
///
/// docs/FORMATS.md, "Answer text".
pub fn answer_text(alloc: Global, answer: &Answer) -> Result<Vec<u8>, AllocError>
    ensures { IfOk result (λ text. text.items ≡ answer_text answer.now) }
{
    match answer {
        Answer::NoPlan => Vec::from_slice(alloc, b"none\n"),
        Answer::Plan { sequence, delay } => {
            let mut text = Vec::from_slice(alloc, b"delay ")?;
            push_number(&mut text, *delay)?;
            text.extend_from_slice(b"\norder")?;
            push_numbers(&mut text, sequence.as_slice())?;
            text.extend_from_slice(b"\n")?;
            Ok(text)
        }
    }
}
