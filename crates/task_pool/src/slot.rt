//! A slot, and its two kinds of end.
ghost use Rattle.std.specs.Prelude.{◌≡◌};
ghost use Rattle.task_pool.specs.Places.{IsOwner, IsWorker};

use crate::rule::SlotRule;
use crate::task::Task;
use crate::views::View;
use atomic_table::{Seat, Table};
use std::alloc::Global;

/// A place for one task at a time.
///
/// docs/DESIGN.md, "Tasks and threads".
#[derive(Drop)]
pub struct Slot<T: Task> {
    pub(crate) table: Table<Option<T>, View<T>, (), SlotRule<T>, Global>,
    ghost sized: { (table.shared.table_id.words ≡ 1) × (table.shared.table_id.slots ≡ 1) },
}

/// The end that lays tasks in a slot, and takes them back.
///
/// docs/DESIGN.md, "Tasks and threads".
#[derive(Drop)]
pub struct SlotOwner<T> {
    pub(crate) seat: Seat<Option<T>, View<T>>,
    /// A seat has no bytes, and a list lends only elements that have some.
    pub(crate) byte: u8,
    ghost placed: { IsOwner seat.id seat.me },
}

/// An end that takes a task, and puts it back done.
///
/// docs/DESIGN.md, "Tasks and threads".
#[derive(Drop)]
pub struct SlotWorker<T> {
    pub(crate) seat: Seat<Option<T>, View<T>>,
    /// A seat has no bytes, and a list lends only elements that have some.
    pub(crate) byte: u8,
    ghost placed: { IsWorker seat.me },
}
