//! The boards are closed.
ghost use Rattle.std.specs.Prelude.{◌≡◌, ◌≤◌, ◌∷◌, ◌++◌, None, [], map, IfOk, IfErr, vec_capacity};
ghost use Rattle.link_boards.specs.{Gathered.HasPasses, Passes.AreAllPasses, Passes.AreLogsOfPasses, Views.entry};

use crate::boards::{Boards, Place};
use crate::pass::Pass;
use crate::rule::EndPass;
use crate::slots::LinkSlot;
use std::alloc::{AllocError, Global};

impl<S: LinkSlot> Boards<S> {
    // Takes in an ended pass.
    fn end(&self, seat: &mut Place<S>, pass: Pass<S>)
        requires table { (seat.old.table_id ≡ self.now.id) × (pass.boards ≡ self.now.id) }
        requires landed { seat.old.me.0.flight ≡ None }
        ensures table { (seat.new.table_id ≡ seat.old.table_id) × (seat.new.me.1 ≡ seat.old.me.1) }
        ensures landed { seat.new.me.0.flight ≡ None }
        ensures entries { seat.new.me.0.entries ≡ seat.old.me.0.entries ++ entry pass.number pass.calls ∷ [] }
    {
        let Pass {
            seat: other,
            number: _,
            left: _,
        } = pass;
        self.table.shared.join_seat::<EndPass>(seat, other);
    }

    // Takes in all passes.
    fn gather(&self, mut passes: Vec<Pass<S>>) -> Place<S>
        requires { AreAllPasses self.now passes.items }
        ensures table { result.table_id ≡ self.now.id }
        ensures passes { HasPasses 0 passes.items result.me }
    {
        let _ = &self.table;
        let Some(last) = passes.pop() else {
            unreachable!();
        };
        let mut seat = last.seat;
        while let Some(pass) = passes.pop() {
            self.end(&mut seat, pass);
        }
        seat
    }

    // Closes the table into memory that is reserved for the slots.
    fn into_reserved(self, mut home: Vec<S>, passes: Vec<Pass<S>>) -> Vec<S>
        requires passes { AreAllPasses self passes.items }
        requires home { (home.items ≡ []) × (self.links ≤ vec_capacity home) }
        ensures { AreLogsOfPasses self.links passes.items (map S.log result.items) }
    {
        let seat = self.gather(passes);
        let Boards {
            table,
            links,
            passes: _,
            waiting: _,
        } = self;
        let mut closed = table.close_with(seat);
        for k in 0..links as usize {
            home.push_reserved(closed.take(k));
        }
        closed.free();
        home
    }

    /// Closes the boards with all their passes, by number, into their slots, which stand for the logs of the passes' calls:
    /// one for each link, legal, with each call once, and the calls agree with it.
    ///
    /// `Err`: out of memory; it gives the boards and the passes back.
    ///
    /// docs/DESIGN.md, "Shared boards".
    pub fn into_slots(
        self,
        alloc: Global,
        passes: Vec<Pass<S>>,
    ) -> Result<Vec<S>, (Boards<S>, Vec<Pass<S>>, AllocError)>
        requires { AreAllPasses self passes.items }
        ensures ok { IfOk result (λ slots. AreLogsOfPasses self.links passes.items (map S.log slots.items)) }
        ensures refused { IfErr result (λ refused. (refused.0 ≡ self) × (refused.1.items ≡ passes.items)) }
    {
        match Vec::with_capacity(alloc, self.links as usize) {
            Ok(home) => Ok(self.into_reserved(home, passes)),
            Err(error) => Err((self, passes, error)),
        }
    }

    /// Takes the boards apart, without their passes, and gives each slot to this closure. It takes no memory.
    ///
    /// docs/DESIGN.md, "Shared boards".
    pub fn take_apart<F: FnMut(S)>(self, mut each: F)
        requires pre { (f : _) (x : _) → F.pre f x }
    {
        let Boards {
            table,
            links,
            passes: _,
            waiting: _,
        } = self;
        let mut closed = table.close();
        for k in 0..links as usize {
            each(closed.take(k));
        }
        closed.free();
    }
}

/// Drops passes.
///
/// docs/DESIGN.md, "Shared boards".
pub fn drop_passes<S: LinkSlot>(passes: Vec<Pass<S>>) {
    drop(passes);
}
