//! What a task is, and what the calling thread does while the pool lasts.
use crate::runner::TaskRunner;
use std::sync::Wait;
use std::thread::Threads;

/// Work that may be done in another thread.
///
/// docs/DESIGN.md, "Tasks and threads".
pub trait Task {
    ghost use denote.Param.Send.{IsSync};

    /// It may be done.
    ghost ready: { Self → Type 0 };

    /// What becomes of it.
    ghost done: { Self → Self → Type 0 };

    /// Does the task.
    fn run<R: Threads + Wait + Sync>(self, rt: &R) -> Self
        requires { IsSync R.row × ready self }
        ensures { done self result };
}

/// What the calling thread does while the pool lasts.
///
/// docs/DESIGN.md, "Tasks and threads".
pub trait PoolJob<T: Task> {
    ghost use Rattle.std.specs.Prelude.{◌≡◌, ℕ};
    ghost use denote.Param.Send.{IsSync};

    /// The type of its answer.
    type Output;

    /// It may run with this number of slots.
    ghost can_run: { Self → ℕ → Type 0 };

    /// What its answer is.
    ghost gives: { Self → Self.Output → Type 0 };

    /// Does the job.
    fn run<R: Threads + Wait + Sync>(self, rt: &R, tasks: &mut TaskRunner<'_, T>) -> Self::Output
        requires { IsSync R.row × can_run self tasks.old }
        ensures output { gives self result }
        ensures same { tasks.new ≡ tasks.old };
}
