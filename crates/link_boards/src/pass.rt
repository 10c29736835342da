//! A pass: a seat at the table, with a number and the calls left.
use crate::boards::Place;
use crate::slots::LinkSlot;
use foundation::threads::CrossesThreads;
use std::marker::Model;

/// The right of one thread to make calls on the boards. Contracts see the boards that it is of, its number, its calls left,
/// the least stamp that it may draw next, and its own calls.
///
/// docs/DESIGN.md, "Shared boards".
#[derive(Drop)]
pub struct Pass<S: LinkSlot> {
    pub(crate) seat: Place<S>,
    pub(crate) number: u32,
    pub(crate) left: u32,
}

impl<S: LinkSlot> Model for Pass<S> {
    ghost use Rattle.link_boards.specs.{Gathered.IsPass, Gathered.pass_view, Passes.PassView};

    ghost Value = { PassView };

    ghost view = { λ p. pass_view p.seat.table_id p.seat.me.0 p.number p.left };

    ghost invariant = { λ p. IsPass p.seat.me p.number p.left };
}

impl<S: LinkSlot + Send + Sync> CrossesThreads for Pass<S> {}

impl<S: LinkSlot> Pass<S> {
    ghost use Rattle.std.specs.Prelude.{◌≡◌};
    ghost use Rattle.link_boards.specs.Passes.{AreInOrder};

    /// Its number, from 0.
    ///
    /// docs/DESIGN.md, "Shared boards".
    pub fn number(&self) -> u32
        ensures value { result ≡ self.now.number }
        ensures order { AreInOrder self.now.known self.now.calls }
    {
        self.number
    }

    /// How many calls it may still make.
    ///
    /// docs/DESIGN.md, "Shared boards".
    pub fn calls_left(&self) -> u32
        ensures value { result ≡ self.now.left }
        ensures order { AreInOrder self.now.known self.now.calls }
    {
        self.left
    }
}
