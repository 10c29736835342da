//! The command `plan FILE`.
ghost use Rattle.commands.specs.Outcome.{Outcome};
ghost use Rattle.planner_jobs.specs.Meanings.{plan_meaning};

use crate::answers::answer_text;
use crate::kinds::InstanceFile;
use commands::{Made, Refusal, Status, TextPlace, Work, fetch, job};
use forward_dp::LayerPlanner;
use outside_world::{Shelf, Sink};
use schedule_meaning::best_answer;
use std::alloc::Global;

/// `plan` with the name of its file.
#[derive(Clone, Copy)]
struct PlanWork<'a> {
    file: &'a str,
}

impl Work for PlanWork<'_> {
    ghost use Rattle.planner_jobs.specs.Meanings.{plan_meaning};

    ghost means = { λ work. plan_meaning work.file.now };

    // The text of the best answer of the instance in the file.
    fn make<S: Shelf>(&self, alloc: Global, shelf: &mut S) -> Result<Made, Refusal> {
        let instance = fetch::<InstanceFile, S>(alloc, shelf, TextPlace::First, self.file, &())?;
        let answer = best_answer(alloc, &mut LayerPlanner, &instance)?;
        let text = answer_text(alloc, &answer)?;
        Ok(Made::Done(text))
    }
}

/// The command `plan FILE`: writes the best answer of the instance in the file.
///
/// Each status has its cause, and each refusal writes its line to `err`, as `signal` says.
///
/// docs/FORMATS.md, "Words".
pub fn plan_job<S: Shelf, O: Sink, E: Sink>(
    alloc: Global,
    file: &str,
    shelf: &mut S,
    out: &mut O,
    err: &mut E,
) -> Status
    ensures { Outcome (plan_meaning file.now)
        (record { shelf = S.state shelf.old; out = O.state out.old; err = E.state err.old })
        (record { shelf = S.state shelf.new; out = O.state out.new; err = E.state err.new }) result }
{
    job(alloc, &PlanWork { file }, shelf, out, err)
}
