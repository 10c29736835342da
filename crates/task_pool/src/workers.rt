//! What a thread of the pool does: it goes over the slots, and does the tasks that it finds.
ghost use Rattle.std.specs.Prelude.{◌≡◌, true, None};
ghost use Rattle.task_pool.specs.Known.{AreWorkersOf, IsWorkerOf, finds_closed, taken_of};

use crate::ends::pause;
use crate::slot::{Slot, SlotWorker};
use crate::task::Task;
use std::sync::Wait;
use std::thread::Threads;

// Does the task that lies in the slot, if one does. Answers whether one did.
fn do_task<T: Task + Drop, R: Threads + Wait + Sync>(
    rt: &R,
    slot: &Slot<T>,
    worker: &mut SlotWorker<T>,
) -> bool
    requires { IsWorkerOf slot.now worker.old × (taken_of worker.old ≡ None) }
    ensures { IsWorkerOf slot.now worker.new × (taken_of worker.new ≡ None) }
{
    let Some(task) = slot.try_take(worker) else {
        return false;
    };
    let task = task.run(rt);
    slot.put_back(worker, task);
    true
}

// Goes once over all slots, from a place on, and does the tasks that it finds. Answers whether it found one.
pub(crate) fn do_tasks<T: Task + Drop, R: Threads + Wait + Sync>(
    rt: &R,
    slots: &[Slot<T>],
    workers: &mut [SlotWorker<T>],
    first: usize,
) -> bool
    requires { AreWorkersOf slots.now workers.old }
    ensures { AreWorkersOf slots.now workers.new }
{
    let mut found = false;
    let mut place = first;
    for _ in 0..slots.len() {
        if place >= slots.len() {
            place = 0;
        }
        if do_task(rt, &slots[place], &mut workers[place]) {
            found = true;
        }
        place += 1;
    }
    found
}

// Looks whether the first slot is closed, or there is none.
fn first_is_closed<T: Task + Drop>(slots: &[Slot<T>], workers: &mut [SlotWorker<T>]) -> bool
    requires { AreWorkersOf slots.now workers.old }
    ensures workers { AreWorkersOf slots.now workers.new }
    ensures closed { result ≡ finds_closed workers.new }
{
    if slots.is_empty() {
        return true;
    }
    slots[0].is_closed(&mut workers[0])
}

// Does tasks until the slots are closed, and gives the thread's ends of them.
pub(crate) fn work<T: Task + Drop, R: Threads + Wait + Sync>(
    rt: &R,
    slots: &[Slot<T>],
    mut workers: Vec<SlotWorker<T>>,
    first: usize,
) -> Vec<SlotWorker<T>>
    requires { AreWorkersOf slots.now workers.items }
    ensures { finds_closed result.items ≡ true }
{
    let mut looks = 0;
    for _ in rt.forever() {
        if first_is_closed(slots, workers.as_mut_slice()) {
            return workers;
        }
        looks = if do_tasks(rt, slots, workers.as_mut_slice(), first) {
            0
        } else {
            pause(looks)
        };
    }
    unreachable!()
}
