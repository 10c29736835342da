//! The slots as the calling thread sees them.
ghost use Rattle.std.specs.Prelude.{◌≡◌, ◌≤◌, [], All, vec_len, vec_capacity, length};
ghost use Rattle.task_pool.specs.{Batch.AreDone, Known.AreAllLaid, Known.AreClosed, Known.AreEmpty, Known.AreLaid, Known.AreOwnersOf, Known.AreTakenBack};

use crate::slot::{Slot, SlotOwner, SlotWorker};
use crate::task::Task;
use crate::workers::do_tasks;
use std::marker::Model;
use std::sync::Wait;
use std::thread::Threads;

/// The slots as the calling thread sees them, all open and empty. Contracts see their number.
///
/// docs/DESIGN.md, "Tasks and threads".
#[derive(Drop)]
pub struct TaskRunner<'a, T: Task> {
    pub(crate) slots: &'a [Slot<T>],
    pub(crate) owners: Vec<SlotOwner<T>>,
    pub(crate) workers: Vec<SlotWorker<T>>,
}

impl<'a, T: Task> Model for TaskRunner<'a, T> {
    ghost use Rattle.std.specs.Prelude.{ℕ, length};
    ghost use Rattle.task_pool.specs.Known.{AreCallerEnds};

    ghost Value = { ℕ };

    ghost view = { λ r. length r.slots.now };

    ghost invariant = { λ r. AreCallerEnds r.slots.now r.owners.items r.workers.items };
}

// Lays each task in the slot at its place.
fn lay_all<T: Task + Drop>(slots: &[Slot<T>], owners: &mut [SlotOwner<T>], tasks: &mut Vec<T>)
    requires owners { AreOwnersOf slots.now owners.old × AreEmpty owners.old }
    requires count { vec_len tasks.old ≡ length slots.now }
    requires ready { All T.ready tasks.old.items }
    ensures owners { AreOwnersOf slots.now owners.new }
    ensures laid { AreLaid tasks.old.items owners.new }
    ensures tasks { (tasks.new.items ≡ []) × (vec_capacity tasks.new ≡ vec_capacity tasks.old) }
{
    while let Some(task) = tasks.pop() {
        let place = tasks.len();
        slots[place].lay(&mut owners[place], task);
    }
}

// Takes the task of each slot back, done, and waits for it.
fn take_all_back<T: Task + Drop, R: Wait>(
    rt: &R,
    slots: &[Slot<T>],
    owners: &mut [SlotOwner<T>],
    tasks: &mut Vec<T>,
)
    requires owners { AreOwnersOf slots.now owners.old }
    requires capacity { (tasks.old.items ≡ []) × (length slots.now ≤ vec_capacity tasks.old) }
    requires laid { AreAllLaid owners.old }
    ensures owners { AreOwnersOf slots.now owners.new × AreEmpty owners.new }
    ensures done { AreTakenBack T.done owners.old tasks.new.items }
{
    for place in 0..slots.len() {
        let task = slots[place].take_back(rt, &mut owners[place]);
        tasks.push_reserved(task);
    }
}

// Closes each slot.
fn close_all<T: Task + Drop>(slots: &[Slot<T>], mut owners: Vec<SlotOwner<T>>) -> Vec<SlotOwner<T>>
    requires owners { AreOwnersOf slots.now owners.items × AreEmpty owners.items }
    ensures owners { AreOwnersOf slots.now result.items × AreClosed result.items }
{
    for place in 0..slots.len() {
        slots[place].close(&mut owners[place]);
    }
    owners
}

impl<'a, T: Task + Drop> TaskRunner<'a, T> {
    /// All tasks done, in the same order, each by whichever thread is free, the calling one among them. There are as many tasks as slots,
    /// and each may be done. It takes no memory.
    ///
    /// docs/DESIGN.md, "Tasks and threads".
    pub fn run_all<R: Threads + Wait + Sync>(&mut self, rt: &R, mut tasks: Vec<T>) -> Vec<T>
        requires count { vec_len tasks ≡ self.old }
        requires ready { All T.ready tasks.items }
        ensures same { self.new ≡ self.old }
        ensures done { AreDone T.done tasks.items result.items }
    {
        lay_all(self.slots, self.owners.as_mut_slice(), &mut tasks);
        do_tasks(rt, self.slots, self.workers.as_mut_slice(), 0);
        take_all_back(rt, self.slots, self.owners.as_mut_slice(), &mut tasks);
        tasks
    }

    // Closes all slots, and gives the ends that closed them.
    pub(crate) fn close(self) -> Vec<SlotOwner<T>>
        ensures count { vec_len result ≡ self.entry }
        ensures closed { AreClosed result.items }
    {
        let TaskRunner {
            slots,
            owners,
            workers: _,
        } = self;
        close_all(slots, owners)
    }
}
