//! The rule of a slot's table, and the names of its steps.
ghost use Rattle.task_pool.specs.{Plays.begins, Plays.closes, Plays.lays, Plays.looks, Plays.puts_back, Plays.takes_back, Plays.takes_task, Rule.Holds, Views.first_view, Views.worker_view};

use crate::task::Task;
use crate::views::View;
use atomic_table::{Play, Split, TableRule};
use std::marker::PhantomData;

/// The rule of a slot.
pub struct SlotRule<T> {
    of: PhantomData<T>,
}

impl<T: Task> TableRule<Option<T>, View<T>, ()> for SlotRule<T> {
    ghost holds = { λ _. Holds T.ready T.done };

    ghost first = { λ _. first_view };
}

/// Takes the empty place of a new slot.
pub struct Begin;

impl<T> Play<Option<T>, View<T>> for Begin {
    ghost then = { begins };
}

/// Lays a task in the slot.
pub struct Lay;

impl<T> Play<Option<T>, View<T>> for Lay {
    ghost then = { lays };
}

/// Takes back what is done.
pub struct TakeBack<T> {
    of: PhantomData<T>,
}

impl<T: Task> Play<Option<T>, View<T>> for TakeBack<T> {
    ghost then = { takes_back T.done };
}

/// Takes a task.
pub struct TakeTask<T> {
    of: PhantomData<T>,
}

impl<T: Task> Play<Option<T>, View<T>> for TakeTask<T> {
    ghost then = { takes_task T.ready };
}

/// Puts back what is done.
pub struct PutBack;

impl<T> Play<Option<T>, View<T>> for PutBack {
    ghost then = { puts_back };
}

/// Closes the slot.
pub struct Close;

impl<T> Play<Option<T>, View<T>> for Close {
    ghost then = { closes };
}

/// Looks whether the slot is closed.
pub struct Look;

impl<T> Play<Option<T>, View<T>> for Look {
    ghost then = { looks };
}

/// Makes an end for a worker.
pub struct SeatWorker;

impl<T> Split<View<T>> for SeatWorker {
    ghost left = { λ view. view };

    ghost right = { worker_view };
}
