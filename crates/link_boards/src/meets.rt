//! Passes meet, by couriers.
ghost use Rattle.std.specs.Prelude.{◌≡◌, [], max, map, All, IsOk};
ghost use Rattle.link_boards.specs.{Gathered.IsCourier, Passes.highest, Passes.raised, Views.courier, Views.informed};

use crate::boards::{Boards, Place};
use crate::pass::Pass;
use crate::rule::{HearCourier, SendCourier};
use crate::slots::LinkSlot;
use std::alloc::AllocError;
use std::marker::Model;

/// What passes that meet have told so far. Contracts see the boards that it is of, and what is known: the least stamp that
/// a pass which is told of it may draw next.
///
/// docs/DESIGN.md, "Shared boards".
#[derive(Drop)]
pub struct Meeting<S: LinkSlot> {
    pub(crate) seat: Place<S>,
}

impl<S: LinkSlot> Model for Meeting<S> {
    ghost use Rattle.link_boards.specs.{Gathered.IsCourier, Meetings.MeetingView, Meetings.meeting_view};

    ghost Value = { MeetingView };

    ghost view = { λ m. meeting_view m.seat.table_id m.seat.me.0.known };

    ghost invariant = { λ m. IsCourier m.seat.me };
}

impl<S: LinkSlot> Boards<S> {
    // Sends a courier.
    fn send(&self, seat: &mut Place<S>) -> Place<S>
        requires table { seat.old.table_id ≡ self.now.id }
        ensures same { (seat.new.table_id ≡ seat.old.table_id) × (seat.new.id ≡ seat.old.id)
            × (seat.new.me ≡ seat.old.me) }
        ensures courier { (result.table_id ≡ self.now.id) × (result.me ≡ (courier seat.old.me.0, [])) }
    {
        self.table.shared.split_seat::<SendCourier>(seat)
    }

    // Hears a courier.
    fn hear(&self, seat: &mut Place<S>, other: Place<S>)
        requires table { (seat.old.table_id ≡ self.now.id) × (other.table_id ≡ self.now.id) }
        requires courier { IsCourier other.me }
        ensures table { (seat.new.table_id ≡ seat.old.table_id) × (seat.new.id ≡ seat.old.id) }
        ensures heard { seat.new.me ≡ (informed seat.old.me.0 other.me.0, seat.old.me.1) }
    {
        self.table.shared.join_seat::<HearCourier>(seat, other);
    }

    /// The meeting hears what a pass knows, which stays as it is.
    ///
    /// docs/DESIGN.md, "Shared boards".
    pub fn collect(&self, meeting: &mut Meeting<S>, pass: &mut Pass<S>)
        requires boards { (meeting.old.boards ≡ self.now.id) × (pass.old.boards ≡ self.now.id) }
        ensures pass { pass.new ≡ pass.old }
        ensures boards { meeting.new.boards ≡ meeting.old.boards }
        ensures known { meeting.new.known ≡ max meeting.old.known pass.old.known }
    {
        let courier = self.send(&mut pass.seat);
        self.hear(&mut meeting.seat, courier);
    }

    /// A pass hears what the meeting knows. It keeps its number, its calls and its calls left.
    ///
    /// docs/DESIGN.md, "Shared boards".
    pub fn inform(&self, meeting: &mut Meeting<S>, pass: &mut Pass<S>)
        requires boards { (meeting.old.boards ≡ self.now.id) × (pass.old.boards ≡ self.now.id) }
        ensures pass { pass.new ≡ raised meeting.old.known pass.old }
        ensures meeting { meeting.new ≡ meeting.old }
    {
        let courier = self.send(&mut meeting.seat);
        self.hear(&mut pass.seat, courier);
    }

    /// Begins a meeting with what a pass knows. A caller whose passes are in places of their own lets the meeting hear each pass, and
    /// then each pass hears the meeting.
    ///
    /// docs/DESIGN.md, "Shared boards".
    pub fn begin_meeting(&self, pass: &mut Pass<S>) -> Meeting<S>
        requires { pass.old.boards ≡ self.now.id }
        ensures pass { pass.new ≡ pass.old }
        ensures meeting { (result.boards ≡ self.now.id) × (result.known ≡ pass.old.known) }
    {
        let seat = self.send(&mut pass.seat);
        Meeting { seat }
    }

    // The meeting hears what passes know.
    fn hear_all(&self, meeting: &mut Meeting<S>, passes: &mut [Pass<S>])
        requires meeting { meeting.old.boards ≡ self.now.id }
        requires boards { All (λ p. p.boards ≡ self.now.id) passes.old }
        ensures passes { passes.new ≡ passes.old }
        ensures boards { meeting.new.boards ≡ self.now.id }
        ensures known { meeting.new.known ≡ max meeting.old.known (highest passes.old) }
    {
        for i in 0..passes.len() {
            self.collect(meeting, &mut passes[i]);
        }
    }

    // Passes hear what the meeting knows.
    fn tell_all(&self, meeting: &mut Meeting<S>, passes: &mut [Pass<S>])
        requires meeting { meeting.old.boards ≡ self.now.id }
        requires boards { All (λ p. p.boards ≡ self.now.id) passes.old }
        ensures passes { passes.new ≡ map (raised meeting.old.known) passes.old }
        ensures meeting { meeting.new ≡ meeting.old }
    {
        for k in 0..passes.len() {
            self.inform(meeting, &mut passes[k]);
        }
    }

    /// Lets passes of these boards meet: the next stamp of each is then above every stamp that one of them had drawn
    /// before. Each keeps its number, its calls and its calls left. It takes no memory, so it answers `Ok`.
    ///
    /// docs/DESIGN.md, "Shared boards".
    pub fn meet(&self, passes: &mut [Pass<S>]) -> Result<(), AllocError>
        requires { All (λ p. p.boards ≡ self.now.id) passes.old }
        ensures ok { IsOk result }
        ensures met { passes.new ≡ map (raised (highest passes.old)) passes.old }
    {
        if passes.is_empty() {
            return Ok(());
        }
        let mut meeting = self.begin_meeting(&mut passes[0]);
        self.hear_all(&mut meeting, passes);
        self.tell_all(&mut meeting, passes);
        Ok(())
    }
}
