//! The boards of all links.
use crate::rule::BoardRule;
use crate::slots::{LinkSlot, Settled};
use crate::views::{Terms, View};
use atomic_table::{Seat, Table};
use foundation::threads::CrossesThreads;
use std::alloc::Global;
use std::marker::Model;
use std::sync::atomic::AtomicU64;

// A seat at the table.
pub(crate) type Place<S> = Seat<S, View>;

/// The boards of all links, which threads share. Contracts see which boards they are, and how many links and passes they
/// have.
///
/// docs/DESIGN.md, "Shared boards".
#[derive(Drop)]
pub struct Boards<S: LinkSlot> {
    // Word 0 is the next stamp; then comes for each link the turn word and the slot with the log.
    pub(crate) table: Table<S, View, Terms, BoardRule<Settled>, Global>,
    pub(crate) links: u32,
    pub(crate) passes: u32,
    // For each link, how many threads wait for its turn. It decides whether a thread is woken, and nothing else.
    pub(crate) waiting: Vec<AtomicU64>,
}

impl<S: LinkSlot> Model for Boards<S> {
    ghost use Rattle.std.specs.Prelude.{◌≡◌, vec_len};
    ghost use Rattle.link_boards.specs.{Gathered.AreBoards, Passes.BoardsView, Passes.boards_view};

    ghost Value = { BoardsView };

    ghost view = { λ b. boards_view b.table.shared.table_id b.links b.passes };

    ghost invariant = { λ b. AreBoards b.table.shared.table_id b.table.shared.key b.links b.passes
        × (vec_len b.waiting ≡ b.links) };
}

impl<S: LinkSlot + Send> CrossesThreads for Boards<S> {}

impl<S: LinkSlot> Boards<S> {
    ghost use Rattle.std.specs.Prelude.{◌≡◌};

    /// How many links they have.
    ///
    /// docs/DESIGN.md, "Shared boards".
    pub fn link_count(&self) -> usize
        ensures { result ≡ self.now.links }
    {
        self.links as usize
    }
}
