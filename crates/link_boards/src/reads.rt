//! A reading.
ghost use Rattle.std.specs.Prelude.{◌≡◌, ◌<◌, ◌≤◌, IfOk, OnErr};
ghost use Rattle.board_model.specs.Boards.{after_read, newest, version_of};
ghost use Rattle.link_boards.specs.{Passes.HasRead, Plays.HasDrawn, Slots.seen_of, Steps.HoldsSlot, Steps.Holding, Steps.CanDraw, Steps.CanNote, Steps.ReadHeld, Steps.ReadAt, Steps.Undrawn, Steps.held, Steps.held_events, Views.drew_read};

use crate::boards::{Boards, Place};
use crate::pass::Pass;
use crate::rule::DrawRead;
use crate::slots::LinkSlot;
use board_model::{Gate, Seen};
use std::alloc::{AllocError, Global};
use std::sync::Wait;
use std::thread::Threads;

/// A reading whose turn is given back: the version that it reads, its stamp, and what it has to give the forecast.
///
/// docs/DESIGN.md, "Shared boards".
pub struct Drawn<Y> {
    /// What gives the version's forecast.
    pub ready: Y,
    /// The version.
    pub version: u32,
    /// The stamp.
    pub stamp: u64,
}

impl<S: LinkSlot> Boards<S> {
    // Draws a stamp to read.
    fn draw_read(&self, seat: &mut Place<S>, _link: u32, _number: u32) -> u64
        requires table { seat.old.table_id ≡ self.now.id }
        requires drawing { CanDraw S.absent S.log _link _number seat.old.me }
        ensures table { (seat.new.table_id ≡ seat.old.table_id) × (seat.new.id ≡ seat.old.id) }
        ensures drawn { HasDrawn seat.old.me.0 result
            × (seat.new.me ≡ (drew_read seat.old.me.0 result, seat.old.me.1)) }
    {
        self.table.shared.fetch_add::<DrawRead>(seat, 0, 1)
    }

    // Adds the event of a reading.
    fn note_read(&self, seat: &mut Place<S>, link: u32, number: u32, stamp: u64) -> u32
        requires table { seat.old.table_id ≡ self.now.id }
        requires note { CanNote S.absent S.log link stamp
            (after_read (held_events S.absent S.log seat.old.me) stamp number) seat.old.me }
        requires settled { S.settled (held S.absent seat.old.me) }
        ensures table { (seat.new.table_id ≡ seat.old.table_id) × (seat.new.id ≡ seat.old.id) }
        ensures view { seat.new.me.0 ≡ seat.old.me.0 }
        ensures holding { Holding S.absent S.log link seat.new.me }
        ensures settled { S.settled (held S.absent seat.new.me) }
        ensures version { result ≡ version_of (held_events S.absent S.log seat.old.me) }
    {
        seat.slot_mut(&self.table.shared, link as usize)
            .note_read(stamp, number)
    }

    // Has the newest forecast ready.
    fn ready_at(
        &self,
        alloc: Global,
        seat: &mut Place<S>,
        link: u32,
    ) -> Result<S::Ready, AllocError>
        requires table { seat.old.table_id ≡ self.now.id }
        requires slot { HoldsSlot S.absent link seat.old.me }
        requires settled { S.settled (held S.absent seat.old.me) }
        ensures table { (seat.new.table_id ≡ seat.old.table_id) × (seat.new.id ≡ seat.old.id) }
        ensures same { seat.new.me ≡ seat.old.me }
        ensures ok { IfOk result (λ r. S.ready r ≡ newest (held_events S.absent S.log seat.old.me)) }
    {
        seat.slot_mut(&self.table.shared, link as usize)
            .prepare_read(alloc)
    }

    // Takes the memory for a reading.
    fn prepare_read(
        &self,
        alloc: Global,
        seat: &mut Place<S>,
        link: u32,
    ) -> Result<S::Ready, AllocError>
        requires table { seat.old.table_id ≡ self.now.id }
        requires slot { HoldsSlot S.absent link seat.old.me }
        requires settled { S.settled (held S.absent seat.old.me) }
        ensures table { (seat.new.table_id ≡ seat.old.table_id) × (seat.new.id ≡ seat.old.id) }
        ensures view { seat.new.me.0 ≡ seat.old.me.0 }
        ensures slot { HoldsSlot S.absent link seat.new.me
            × (held_events S.absent S.log seat.new.me ≡ held_events S.absent S.log seat.old.me) }
        ensures settled { S.settled (held S.absent seat.new.me) }
        ensures ok { IfOk result (λ r. (S.ready r ≡ newest (held_events S.absent S.log seat.old.me))
            × (1 ≤ (S.log (held S.absent seat.new.me)).spare)) }
    {
        self.reserve_at(seat, link)?;
        self.ready_at(alloc, seat, link)
    }

    // The reading of a pass that has the turn, and keeps it.
    fn read_held(
        &self,
        alloc: Global,
        seat: &mut Place<S>,
        link: u32,
        number: u32,
    ) -> Result<Drawn<S::Ready>, AllocError>
        requires table { seat.old.table_id ≡ self.now.id }
        requires drawing { CanDraw S.absent S.log link number seat.old.me }
        requires settled { S.settled (held S.absent seat.old.me) }
        ensures table { (seat.new.table_id ≡ seat.old.table_id) × (seat.new.id ≡ seat.old.id) }
        ensures holding { Holding S.absent S.log link seat.new.me }
        ensures settled { S.settled (held S.absent seat.new.me) }
        ensures ok { IfOk result
            (λ d. ReadHeld S.absent S.log seat.old.me (S.ready d.ready) d.version d.stamp seat.new.me) }
        ensures refused { OnErr result (seat.new.me.0 ≡ seat.old.me.0) }
    {
        let ready = self.prepare_read(alloc, seat, link)?;
        let stamp = self.draw_read(seat, link, number);
        let version = self.note_read(seat, link, number, stamp);
        Ok(Drawn {
            ready,
            version,
            stamp,
        })
    }

    // The reading of a pass that has the turn. It gives the turn back.
    fn read_at(
        &self,
        alloc: Global,
        seat: &mut Place<S>,
        link: u32,
        number: u32,
    ) -> Result<Drawn<S::Ready>, AllocError>
        requires table { seat.old.table_id ≡ self.now.id }
        requires link { link < self.now.links }
        requires drawing { CanDraw S.absent S.log link number seat.old.me }
        requires settled { S.settled (held S.absent seat.old.me) }
        ensures table { (seat.new.table_id ≡ seat.old.table_id) × (seat.new.id ≡ seat.old.id) }
        ensures ok { IfOk result
            (λ d. ReadAt S.absent S.log seat.old.me (S.ready d.ready) d.version d.stamp seat.new.me) }
        ensures refused { OnErr result (Undrawn seat.old.me seat.new.me) }
    {
        let drawn = self.read_held(alloc, seat, link, number);
        self.give(seat, link);
        drawn
    }

    /// Draws a reading's stamp, and gives the link's turn back: `LinkSlot::finish` then gives the forecast, which may be copied while other
    /// passes call. The rest is as of `read`.
    ///
    /// `Err`: out of memory; the pass is as it was, and the call adds no event to a log.
    ///
    /// docs/DESIGN.md, "Shared boards".
    pub fn draw<R: Threads + Wait + Sync, G: Gate>(
        &self,
        rt: &R,
        alloc: Global,
        pass: &mut Pass<S>,
        link: u32,
        gate: &G,
    ) -> Result<Drawn<S::Ready>, AllocError>
        requires boards { pass.old.boards ≡ self.now.id }
        requires link { link < self.now.links }
        requires left { 0 < pass.old.left }
        ensures ok { IfOk result (λ d. HasRead pass.old pass.new link (seen_of d.version d.stamp (S.ready d.ready))) }
        ensures refused { OnErr result (pass.new ≡ pass.old) }
    {
        let number = pass.number;
        self.take(rt, &mut pass.seat, number, link);
        gate.inside(rt, number, link, false);
        let drawn = self.read_at(alloc, &mut pass.seat, link, number)?;
        pass.left -= 1;
        Ok(drawn)
    }

    /// Reads a link's board: answers the newest version with its forecast, and the stamp that the call drew, which is above
    /// all that the pass knew. The pass is one of these boards with calls left, and the link exists. `gate.inside` is
    /// called once while the call holds the link's turn. It waits for the turn.
    ///
    /// `Err`: out of memory; the pass is as it was, and the call adds no event to a log.
    ///
    /// docs/DESIGN.md, "Shared boards".
    pub fn read<R: Threads + Wait + Sync, G: Gate>(
        &self,
        rt: &R,
        alloc: Global,
        pass: &mut Pass<S>,
        link: u32,
        gate: &G,
    ) -> Result<Seen, AllocError>
        requires boards { pass.old.boards ≡ self.now.id }
        requires link { link < self.now.links }
        requires left { 0 < pass.old.left }
        ensures ok { IfOk result (λ seen. HasRead pass.old pass.new link seen) }
        ensures refused { OnErr result (pass.new ≡ pass.old) }
    {
        let Drawn {
            ready,
            version,
            stamp,
        } = self.draw(rt, alloc, pass, link, gate)?;
        Ok(Seen {
            version,
            stamp,
            forecast: S::finish(rt, ready),
        })
    }
}
