//! The rule of the table, and the names of its steps.
ghost use Rattle.std.specs.Prelude.{ℕ, List};
ghost use Rattle.board_model.specs.{declared.boards.BoardEvent.BoardEvent, declared.forecasts.Row.Row};
ghost use Rattle.link_boards.specs.{Plays.draws_read, Plays.draws_publish, Plays.takes_turn, Plays.gives_turn, Rule.Holds, Views.first_view, Views.dealt, Views.newcomer, Views.courier, Views.spent, Views.informed, Views.ended};

use crate::views::{Terms, View};
use atomic_table::{Join, Play, Split, TableRule};
use std::marker::{Brand, PhantomData};

/// For which log a slot of the table stands. Each form of the boards has its own.
///
/// docs/DESIGN.md, "Shared boards".
pub trait Stands<S> {
    ghost stands: { S → List BoardEvent → Type 0 };
}

/// The rule of the boards.
///
/// docs/DESIGN.md, "Shared boards".
pub struct BoardRule<Q> {
    of: PhantomData<Q>,
}

impl<S, Q: Stands<S>> TableRule<S, View, Terms> for BoardRule<Q> {
    ghost holds = { Holds Q.stands };

    ghost first = { first_view };
}

/// What a publishing will tell, for the proof alone. A call at `Brand` picks it from its `requires`.
///
/// docs/DESIGN.md, "Shared boards".
pub trait BoardRequest {
    ghost forecast: { List Row };
}

impl BoardRequest for Brand {
    ghost use Rattle.std.specs.Prelude.{[]};

    ghost forecast = { [] };
}

/// How many calls a pass will have, for the proof alone. A call at `Brand` picks it from its `requires`.
///
/// docs/DESIGN.md, "Shared boards".
pub trait PassRequest {
    ghost calls: { ℕ };
}

impl PassRequest for Brand {
    ghost calls = { 0 };
}

/// Takes the turn of a link, if it is free.
///
/// docs/DESIGN.md, "Shared boards".
pub struct TakeTurn<Q> {
    of: PhantomData<Q>,
}

impl<S, Q: Stands<S>> Play<S, View> for TakeTurn<Q> {
    ghost then = { takes_turn Q.stands };
}

/// Draws the stamp of a reading.
///
/// docs/DESIGN.md, "Shared boards".
pub struct DrawRead;

impl<S> Play<S, View> for DrawRead {
    ghost then = { draws_read };
}

/// Draws the stamp of a publishing.
///
/// docs/DESIGN.md, "Shared boards".
pub struct DrawPublish<W> {
    asked: PhantomData<W>,
}

impl<S, W: BoardRequest> Play<S, View> for DrawPublish<W> {
    ghost then = { draws_publish W.forecast };
}

/// Gives the turn back.
///
/// docs/DESIGN.md, "Shared boards".
pub struct GiveTurn;

impl<S> Play<S, View> for GiveTurn {
    ghost then = { gives_turn };
}

/// Makes a pass.
///
/// docs/DESIGN.md, "Shared boards".
pub struct DealPass<W> {
    asked: PhantomData<W>,
}

impl<W: PassRequest> Split<View> for DealPass<W> {
    ghost left = { dealt W.calls };

    ghost right = { newcomer W.calls };
}

/// Sends a courier.
///
/// docs/DESIGN.md, "Shared boards".
pub struct SendCourier;

impl Split<View> for SendCourier {
    ghost left = { λ view. view };

    ghost right = { courier };
}

/// Hears a courier.
///
/// docs/DESIGN.md, "Shared boards".
pub struct HearCourier;

impl Join<View> for HearCourier {
    ghost both = { informed };

    ghost spent = { spent };
}

/// Takes in an ended pass.
///
/// docs/DESIGN.md, "Shared boards".
pub struct EndPass;

impl Join<View> for EndPass {
    ghost both = { ended };

    ghost spent = { spent };
}
