//! What the ends of a slot do.
ghost use Rattle.std.specs.Prelude.{◌≡◌, ◌≢◌, true, false, None, Some, IfNone, IfOk, IfSome};
ghost use Rattle.task_pool.specs.{Known.IsOpen, Known.IsOwnerOf, Known.IsWorkerOf, Known.found_closed, Known.has_closed, Known.laid_of, Known.taken_of, Places.IsBack};

use crate::rule::{Begin, Close, Lay, Look, PutBack, SeatWorker, TakeBack, TakeTask};
use crate::slot::{Slot, SlotOwner, SlotWorker};
use crate::task::Task;
use atomic_table::Table;
use std::alloc::{AllocError, Global};
use std::hint::spin_loop;
use std::sync::Wait;
use std::thread::yield_now;

/// The number of looks after which a thread that waits lets others run.
const LOOKS: u64 = 1000;

/// How long a thread that waits rests between two looks: it then leaves the words that it looks at to those that change them.
const RESTS: u32 = 32;

/// Waits a moment, after this number of looks. Answers the number that the next wait is passed.
pub(crate) fn pause(looks: u64) -> u64 {
    if looks >= LOOKS {
        yield_now();
        return looks;
    }
    for _ in 0..RESTS {
        spin_loop();
    }
    looks + 1
}

impl<T: Task + Drop> Slot<T> {
    /// A new slot, with nothing in it. `Err`: out of memory.
    pub fn new(alloc: Global) -> Result<(Slot<T>, SlotOwner<T>), AllocError>
        ensures { IfOk result (λ r. IsOwnerOf r.0 r.1 × IsOpen r.1) }
    {
        let (table, mut seat) = Table::vacant(alloc, &[0], 1, &())?;
        table.shared.store::<Begin>(&mut seat, 0, 0);
        Ok((Slot { table }, SlotOwner { seat, byte: 0 }))
    }

    /// One more end for a worker.
    pub fn worker(&self, owner: &mut SlotOwner<T>) -> SlotWorker<T>
        requires { IsOwnerOf self.now owner.old }
        ensures owner { IsOwnerOf self.now owner.new × (laid_of owner.new ≡ laid_of owner.old) }
        ensures closed { has_closed owner.new ≡ has_closed owner.old }
        ensures worker { IsWorkerOf self.now result × (taken_of result ≡ None) }
    {
        let seat = self.table.shared.split_seat::<SeatWorker>(&mut owner.seat);
        SlotWorker { seat, byte: 0 }
    }

    /// Lays a task in the slot, which is open.
    pub fn lay(&self, owner: &mut SlotOwner<T>, task: T)
        requires slot { IsOwnerOf self.now owner.old }
        requires empty { IsOpen owner.old }
        requires ready { T.ready task }
        ensures { IsOwnerOf self.now owner.new × (laid_of owner.new ≡ Some task) }
    {
        let shared = &self.table.shared;
        let None = shared.exchange(&mut owner.seat, 0, Some(task)) else {
            unreachable!();
        };
        shared.store::<Lay>(&mut owner.seat, 0, 1);
    }

    /// Takes the task back, if it is done.
    pub fn try_take_back(&self, owner: &mut SlotOwner<T>) -> Option<T>
        requires slot { IsOwnerOf self.now owner.old }
        requires laid { laid_of owner.old ≢ None }
        ensures slot { IsOwnerOf self.now owner.new }
        ensures back { IfSome result (λ task. IsBack T.done (laid_of owner.old) task × IsOpen owner.new) }
        ensures waits { IfNone result (laid_of owner.new ≡ laid_of owner.old) }
    {
        let shared = &self.table.shared;
        if shared.peek(0) != 3 {
            return None;
        }
        if shared.compare_exchange::<TakeBack<T>>(&mut owner.seat, 0, 3, 0) != 3 {
            return None;
        }
        shared.exchange(&mut owner.seat, 0, None)
    }

    /// Waits until the task is done, and takes it back.
    pub fn take_back<R: Wait>(&self, rt: &R, owner: &mut SlotOwner<T>) -> T
        requires slot { IsOwnerOf self.now owner.old }
        requires laid { laid_of owner.old ≢ None }
        ensures slot { IsOwnerOf self.now owner.new × IsOpen owner.new }
        ensures done { IsBack T.done (laid_of owner.old) result }
    {
        let mut looks = 0;
        for _ in rt.forever() {
            if let Some(task) = self.try_take_back(owner) {
                return task;
            }
            looks = pause(looks);
        }
        unreachable!()
    }

    /// Closes the slot, in which nothing is laid: no end finds a task there any more.
    pub fn close(&self, owner: &mut SlotOwner<T>)
        requires slot { IsOwnerOf self.now owner.old }
        requires free { laid_of owner.old ≡ None }
        ensures slot { IsOwnerOf self.now owner.new × (laid_of owner.new ≡ None) }
        ensures closed { has_closed owner.new ≡ true }
    {
        self.table.shared.store::<Close>(&mut owner.seat, 0, 4);
    }

    /// Looks whether the slot is closed: it is where its word is 4, and stays so.
    pub fn is_closed(&self, worker: &mut SlotWorker<T>) -> bool
        requires { IsWorkerOf self.now worker.old }
        ensures slot { IsWorkerOf self.now worker.new × (taken_of worker.new ≡ taken_of worker.old) }
        ensures closed { result ≡ found_closed worker.new }
    {
        self.table.shared.load::<Look>(&mut worker.seat, 0) == 4
    }

    /// Takes the task that lies in the slot, if one does.
    pub fn try_take(&self, worker: &mut SlotWorker<T>) -> Option<T>
        requires slot { IsWorkerOf self.now worker.old }
        requires free { taken_of worker.old ≡ None }
        ensures slot { IsWorkerOf self.now worker.new }
        ensures taken { IfSome result (λ task. T.ready task × (taken_of worker.new ≡ Some task)) }
        ensures nothing { IfNone result (taken_of worker.new ≡ None) }
    {
        let shared = &self.table.shared;
        if shared.peek(0) != 1 {
            return None;
        }
        if shared.compare_exchange::<TakeTask<T>>(&mut worker.seat, 0, 1, 2) != 1 {
            return None;
        }
        shared.exchange(&mut worker.seat, 0, None)
    }

    /// Puts back what became of the task.
    pub fn put_back(&self, worker: &mut SlotWorker<T>, task: T)
        requires slot { IsWorkerOf self.now worker.old }
        requires done { IsBack T.done (taken_of worker.old) task }
        ensures { IsWorkerOf self.now worker.new × (taken_of worker.new ≡ None) }
    {
        let shared = &self.table.shared;
        let None = shared.exchange(&mut worker.seat, 0, Some(task)) else {
            unreachable!();
        };
        shared.store::<PutBack>(&mut worker.seat, 0, 3);
    }
}
