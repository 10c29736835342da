//! A pool of threads that last.
ghost use Rattle.std.specs.Prelude.{◌≡◌, IfOk, All, length, vec_len};
ghost use denote.Param.Send.{IsSend, IsSync};
ghost use Rattle.task_pool.specs.{Known.AreCallerEnds, Known.AreClosed, Known.AreEmpty, Known.AreOwnersOf, Known.AreWorkersOf, Threads.AreThreadsOf};

use crate::runner::TaskRunner;
use crate::slot::{Slot, SlotOwner, SlotWorker};
use crate::task::{PoolJob, Task};
use crate::workers::work;
use std::alloc::{AllocError, Global};
use std::marker::Model;
use std::sync::Wait;
use std::thread::{Threads, join};

/// What one thread of the pool has.
#[derive(Drop)]
pub struct PoolThread<T> {
    /// Its ends of all slots.
    pub workers: Vec<SlotWorker<T>>,
    /// The place of the slot at which it looks first.
    pub first: usize,
}

/// Threads that last, and slots for their tasks. Contracts see the number of slots.
///
/// docs/DESIGN.md, "Tasks and threads".
#[derive(Drop)]
pub struct TaskPool<T: Task> {
    slots: Vec<Slot<T>>,
    owners: Vec<SlotOwner<T>>,
    workers: Vec<SlotWorker<T>>,
    others: Vec<PoolThread<T>>,
}

impl<T: Task> Model for TaskPool<T> {
    ghost use Rattle.std.specs.Prelude.{ℕ, length};
    ghost use Rattle.task_pool.specs.{Known.AreCallerEnds, Threads.AreThreadsOf};

    ghost Value = { ℕ };

    ghost view = { λ p. length p.slots.items };

    ghost invariant = { λ p. AreCallerEnds p.slots.items p.owners.items p.workers.items × AreThreadsOf p.slots.items p.others.items };
}

// New slots, with nothing in them.
fn new_slots<T: Task + Drop>(
    alloc: Global,
    count: usize,
) -> Result<(Vec<Slot<T>>, Vec<SlotOwner<T>>), AllocError>
    ensures count { IfOk result (λ r. vec_len r.0 ≡ count) }
    ensures owners { IfOk result (λ r. AreOwnersOf r.0.items r.1.items × AreEmpty r.1.items) }
{
    let mut slots = Vec::with_capacity(alloc, count)?;
    let mut owners = Vec::with_capacity(alloc, count)?;
    for _made in 0..count {
        let (slot, owner) = Slot::new(alloc)?;
        slots.push_reserved(slot);
        owners.push_reserved(owner);
    }
    Ok((slots, owners))
}

// One thread's ends of all slots.
fn new_workers<T: Task + Drop>(
    alloc: Global,
    slots: &[Slot<T>],
    owners: &mut [SlotOwner<T>],
) -> Result<Vec<SlotWorker<T>>, AllocError>
    requires owners { AreOwnersOf slots.now owners.old × AreEmpty owners.old }
    ensures owners { AreOwnersOf slots.now owners.new × AreEmpty owners.new }
    ensures workers { IfOk result (λ workers. AreWorkersOf slots.now workers.items) }
{
    let mut workers = Vec::with_capacity(alloc, slots.len())?;
    for place in 0..slots.len() {
        workers.push_reserved(slots[place].worker(&mut owners[place]));
    }
    Ok(workers)
}

// The threads of the pool but the calling one.
fn other_threads<T: Task + Drop>(
    alloc: Global,
    slots: &[Slot<T>],
    owners: &mut [SlotOwner<T>],
    threads: usize,
) -> Result<Vec<PoolThread<T>>, AllocError>
    requires owners { AreOwnersOf slots.now owners.old × AreEmpty owners.old }
    ensures owners { AreOwnersOf slots.now owners.new × AreEmpty owners.new }
    ensures threads { IfOk result (λ others. AreThreadsOf slots.now others.items) }
{
    let mut others = Vec::new(alloc);
    for number in 1..threads {
        let first = number.wrapping_mul(slots.len()) / threads;
        let workers = new_workers(alloc, slots, owners)?;
        others.push(PoolThread { workers, first })?;
    }
    Ok(others)
}

// All threads' ends of all slots: those of the calling one, and the others.
fn all_threads<T: Task + Drop>(
    alloc: Global,
    slots: &[Slot<T>],
    owners: &mut [SlotOwner<T>],
    threads: usize,
) -> Result<(Vec<SlotWorker<T>>, Vec<PoolThread<T>>), AllocError>
    requires owners { AreOwnersOf slots.now owners.old × AreEmpty owners.old }
    ensures owners { AreOwnersOf slots.now owners.new × AreEmpty owners.new }
    ensures workers { IfOk result (λ r. AreWorkersOf slots.now r.0.items) }
    ensures threads { IfOk result (λ r. AreThreadsOf slots.now r.1.items) }
{
    let workers = new_workers(alloc, slots, owners)?;
    let others = other_threads(alloc, slots, owners, threads)?;
    Ok((workers, others))
}

// Does the job, and closes the slots. Gives the ends that closed them beside what the job gives.
fn run_and_close<T: Task + Drop, R: Threads + Wait + Sync, J: PoolJob<T> + Drop>(
    rt: &R,
    mut tasks: TaskRunner<'_, T>,
    job: J,
) -> (J::Output, Vec<SlotOwner<T>>)
    requires { J.can_run job tasks }
    ensures output { J.gives job result.0 }
    ensures closed { (vec_len result.1 ≡ tasks.entry) × AreClosed result.1.items }
{
    let output = job.run(rt, &mut tasks);
    let owners = tasks.close();
    (output, owners)
}

// Does the job in this thread, with a thread beside for each of the others, and closes the slots.
#[cycle(threads)]
fn run_beside<T: Task + Drop + Send, R: Threads + Wait + Sync, J: PoolJob<T> + Drop>(
    rt: &R,
    slots: &[Slot<T>],
    mut others: Vec<PoolThread<T>>,
    owners: Vec<SlotOwner<T>>,
    workers: Vec<SlotWorker<T>>,
    job: J,
) -> (J::Output, Vec<SlotOwner<T>>)
    requires others { AreThreadsOf slots.now others.items }
    requires ends { AreCallerEnds slots.now owners.items workers.items }
    requires job { J.can_run job (length slots.now) }
    ensures output { J.gives job result.0 }
    ensures closed { (vec_len result.1 ≡ length slots.now) × AreClosed result.1.items }
{
    let Some(other) = others.pop() else {
        let tasks = TaskRunner {
            slots,
            owners,
            workers,
        };
        return run_and_close(rt, tasks, job);
    };
    let PoolThread {
        workers: their_workers,
        first,
    } = other;
    let beside = move || -> ()
        requires { IsSync R.row × IsSend T.row × AreWorkersOf slots.now their_workers.items }
    {
        let _ = work(rt, slots, their_workers, first);
    };
    let rest = move || -> (J::Output, Vec<SlotOwner<T>>)
        requires crosses { IsSync R.row × IsSend T.row }
        requires others { AreThreadsOf slots.now others.items }
        requires ends { AreCallerEnds slots.now owners.items workers.items }
        requires job { J.can_run job (length slots.now) }
        ensures output { J.gives job result.0 }
        ensures closed { (vec_len result.1 ≡ length slots.entry.now) × AreClosed result.1.items }
    { run_beside(rt, slots, others, owners, workers, job) };
    let ((), ended) = join(rt, beside, rest);
    ended
}

impl<T: Task + Drop + Send> TaskPool<T> {
    /// A pool of this many slots and threads, the calling thread among them. `Err`: out of memory.
    ///
    /// docs/DESIGN.md, "Tasks and threads".
    pub fn new(alloc: Global, slots: usize, threads: usize) -> Result<TaskPool<T>, AllocError>
        ensures { IfOk result (λ pool. pool ≡ slots) }
    {
        let (slots, mut owners) = new_slots(alloc, slots)?;
        let all = all_threads(alloc, slots.as_slice(), owners.as_mut_slice(), threads)?;
        Ok(TaskPool {
            slots,
            owners,
            workers: all.0,
            others: all.1,
        })
    }

    /// Does the job in this thread, with the other threads beside, which do the tasks that it lays out. When it returns, all of
    /// them have ended. It takes no memory that could be refused. Where a thread cannot be started, the others do the tasks.
    ///
    /// docs/DESIGN.md, "Tasks and threads".
    pub fn run<R: Threads + Wait + Sync, J: PoolJob<T> + Drop>(self, rt: &R, job: J) -> J::Output
        requires { J.can_run job self }
        ensures { J.gives job result }
    {
        let TaskPool {
            slots,
            owners,
            workers,
            others,
        } = self;
        let (output, _) = run_beside(rt, slots.as_slice(), others, owners, workers, job);
        output
    }
}
