//! A publishing.
ghost use Rattle.std.specs.Prelude.{◌≡◌, ◌<◌, ◌≤◌, ◌+◌, IfOk, IfErr, OnErr, OnOk, MatchResult};
ghost use Rattle.board_model.specs.Boards.{after_publish, most_versions, version_of};
ghost use Rattle.link_boards.specs.{Passes.HasSent, Plays.HasDrawn, Steps.HoldsSlot, Steps.Holding, Steps.CanDraw, Steps.CanNote, Steps.SentHeld, Steps.SentAt, Steps.Undrawn, Steps.held, Steps.held_events, Views.drew_publish};

use crate::boards::{Boards, Place};
use crate::pass::Pass;
use crate::rule::{BoardRequest, DrawPublish};
use crate::slots::LinkSlot;
use board_model::{Forecast, Gate, Sent};
use std::alloc::AllocError;
use std::marker::Brand;
use std::sync::Wait;
use std::thread::Threads;

impl<S: LinkSlot> Boards<S> {
    // Draws a stamp to publish.
    fn draw_publish<W: BoardRequest>(
        &self,
        seat: &mut Place<S>,
        _link: u32,
        _number: u32,
        _f: &Forecast,
    ) -> u64
        requires asked { W.forecast ≡ _f.now }
        requires table { seat.old.table_id ≡ self.now.id }
        requires drawing { CanDraw S.absent S.log _link _number seat.old.me }
        ensures table { (seat.new.table_id ≡ seat.old.table_id) × (seat.new.id ≡ seat.old.id) }
        ensures drawn { HasDrawn seat.old.me.0 result
            × (seat.new.me ≡ (drew_publish W.forecast seat.old.me.0 result, seat.old.me.1)) }
    {
        self.table.shared.fetch_add::<DrawPublish<W>>(seat, 0, 1)
    }

    // Adds the event of a publishing.
    fn note_publish(
        &self,
        seat: &mut Place<S>,
        link: u32,
        number: u32,
        stamp: u64,
        f: Forecast,
    ) -> u32
        requires table { seat.old.table_id ≡ self.now.id }
        requires few { version_of (held_events S.absent S.log seat.old.me) < most_versions }
        requires prepared { S.prepared (held S.absent seat.old.me) f }
        requires note { CanNote S.absent S.log link stamp
            (after_publish (held_events S.absent S.log seat.old.me) stamp number f) seat.old.me }
        ensures table { (seat.new.table_id ≡ seat.old.table_id) × (seat.new.id ≡ seat.old.id) }
        ensures view { seat.new.me.0 ≡ seat.old.me.0 }
        ensures holding { Holding S.absent S.log link seat.new.me }
        ensures settled { S.settled (held S.absent seat.new.me) }
        ensures version { result ≡ version_of (held_events S.absent S.log seat.old.me) + 1 }
    {
        seat.slot_mut(&self.table.shared, link as usize)
            .note_publish(stamp, number, f)
    }

    // Makes the slot ready for a publishing.
    fn ready_to_publish<R: Wait>(
        &self,
        rt: &R,
        seat: &mut Place<S>,
        link: u32,
        f: &Forecast,
    ) -> Result<(), AllocError>
        requires table { seat.old.table_id ≡ self.now.id }
        requires slot { HoldsSlot S.absent link seat.old.me }
        requires settled { S.settled (held S.absent seat.old.me) }
        ensures table { (seat.new.table_id ≡ seat.old.table_id) × (seat.new.id ≡ seat.old.id) }
        ensures view { seat.new.me.0 ≡ seat.old.me.0 }
        ensures slot { HoldsSlot S.absent link seat.new.me
            × (S.log (held S.absent seat.new.me) ≡ S.log (held S.absent seat.old.me)) }
        ensures made { MatchResult result (λ _. S.prepared (held S.absent seat.new.me) f.now)
            (λ _. S.settled (held S.absent seat.new.me)) }
    {
        seat.slot_mut(&self.table.shared, link as usize)
            .prepare_publish(rt, f)
    }

    // Takes the memory for a publishing.
    fn prepare_publish<R: Wait>(
        &self,
        rt: &R,
        seat: &mut Place<S>,
        link: u32,
        f: &Forecast,
    ) -> Result<(), AllocError>
        requires table { seat.old.table_id ≡ self.now.id }
        requires slot { HoldsSlot S.absent link seat.old.me }
        requires settled { S.settled (held S.absent seat.old.me) }
        ensures table { (seat.new.table_id ≡ seat.old.table_id) × (seat.new.id ≡ seat.old.id) }
        ensures view { seat.new.me.0 ≡ seat.old.me.0 }
        ensures slot { HoldsSlot S.absent link seat.new.me
            × (held_events S.absent S.log seat.new.me ≡ held_events S.absent S.log seat.old.me) }
        ensures made { MatchResult result
            (λ _. S.prepared (held S.absent seat.new.me) f.now × (1 ≤ (S.log (held S.absent seat.new.me)).spare))
            (λ _. S.settled (held S.absent seat.new.me)) }
    {
        self.reserve_at(seat, link)?;
        self.ready_to_publish(rt, seat, link, f)
    }

    // The publishing of a pass that has the turn, and keeps it.
    fn publish_held<R: Wait>(
        &self,
        rt: &R,
        seat: &mut Place<S>,
        link: u32,
        number: u32,
        f: Forecast,
    ) -> Result<Sent, (Forecast, AllocError)>
        requires table { seat.old.table_id ≡ self.now.id }
        requires drawing { CanDraw S.absent S.log link number seat.old.me }
        requires settled { S.settled (held S.absent seat.old.me) }
        ensures table { (seat.new.table_id ≡ seat.old.table_id) × (seat.new.id ≡ seat.old.id) }
        ensures holding { Holding S.absent S.log link seat.new.me }
        ensures settled { S.settled (held S.absent seat.new.me) }
        ensures ok { IfOk result (λ sent. SentHeld S.absent S.log seat.old.me f sent.version sent.stamp seat.new.me) }
        ensures back { IfErr result (λ refused. refused.0 ≡ f) }
        ensures refused { OnErr result (seat.new.me.0 ≡ seat.old.me.0) }
    {
        match self.prepare_publish(rt, seat, link, &f) {
            Ok(()) => {
                let stamp = self.draw_publish::<Brand>(seat, link, number, &f);
                let version = self.note_publish(seat, link, number, stamp, f);
                Ok(Sent { version, stamp })
            }
            Err(error) => Err((f, error)),
        }
    }

    // The publishing of a pass that has the turn. It gives the turn back.
    fn publish_at<R: Wait>(
        &self,
        rt: &R,
        seat: &mut Place<S>,
        link: u32,
        number: u32,
        f: Forecast,
    ) -> Result<Sent, (Forecast, AllocError)>
        requires table { seat.old.table_id ≡ self.now.id }
        requires link { link < self.now.links }
        requires drawing { CanDraw S.absent S.log link number seat.old.me }
        requires settled { S.settled (held S.absent seat.old.me) }
        ensures table { (seat.new.table_id ≡ seat.old.table_id) × (seat.new.id ≡ seat.old.id) }
        ensures ok { IfOk result (λ sent. SentAt S.absent S.log seat.old.me f sent.version sent.stamp seat.new.me) }
        ensures back { IfErr result (λ refused. refused.0 ≡ f) }
        ensures refused { OnErr result (Undrawn seat.old.me seat.new.me) }
    {
        let sent = self.publish_held(rt, seat, link, number, f);
        self.give(seat, link);
        sent
    }

    /// Publishes a forecast on a link's board: answers the version that it became, and the stamp that the call drew, which
    /// is above all that the pass knew. The pass is one of these boards with calls left, and the link exists.
    /// `gate.inside` is called once while the call holds the link's turn. It waits for the turn.
    ///
    /// `Err`: out of memory; the forecast is given back, the pass is as it was, and the call adds no event to
    /// a log.
    ///
    /// docs/DESIGN.md, "Shared boards".
    pub fn publish<R: Threads + Wait + Sync, G: Gate>(
        &self,
        rt: &R,
        pass: &mut Pass<S>,
        link: u32,
        f: Forecast,
        gate: &G,
    ) -> Result<Sent, (Forecast, AllocError)>
        requires boards { pass.old.boards ≡ self.now.id }
        requires link { link < self.now.links }
        requires left { 0 < pass.old.left }
        ensures ok { IfOk result (λ sent. HasSent pass.old pass.new link f sent) }
        ensures back { IfErr result (λ refused. refused.0 ≡ f) }
        ensures refused { OnErr result (pass.new ≡ pass.old) }
    {
        let number = pass.number;
        self.take(rt, &mut pass.seat, number, link);
        gate.inside(rt, number, link, true);
        let sent = self.publish_at(rt, &mut pass.seat, link, number, f)?;
        pass.left -= 1;
        Ok(sent)
    }
}
