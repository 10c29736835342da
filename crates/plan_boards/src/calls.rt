//! The calls of a pass: a reading and a publishing.
ghost use Rattle.std.specs.Prelude.{◌≡◌, ◌<◌, IfOk, IfErr, OnErr};
ghost use Rattle.link_boards.specs.Passes.{HasRead, HasSent};

use crate::boards::{Boards, Pass};
use board_model::{Forecast, Gate, Seen, Sent};
use std::alloc::{AllocError, Global};
use std::sync::Wait;
use std::thread::Threads;

impl Boards {
    /// Reads a link's board: answers the newest version with its forecast, and the stamp that the call drew, which is above
    /// all that the pass knew. The pass is one of these boards with calls left, and the link exists. `gate.inside` is
    /// called once while the call holds the link's turn. It waits for the turn.
    ///
    /// `Err`: out of memory; the pass is as it was, and the call adds no event to a log.
    ///
    /// docs/DESIGN.md, "Shared boards".
    pub fn read<R: Threads + Wait + Sync, G: Gate>(
        &self,
        rt: &R,
        alloc: Global,
        pass: &mut Pass,
        link: u32,
        gate: &G,
    ) -> Result<Seen, AllocError>
        requires boards { pass.old.boards ≡ self.now.id }
        requires link { link < self.now.links }
        requires left { 0 < pass.old.left }
        ensures ok { IfOk result (λ seen. HasRead pass.old pass.new link seen) }
        ensures refused { OnErr result (pass.new ≡ pass.old) }
    {
        self.shared.read(rt, alloc, pass, link, gate)
    }

    /// Publishes a forecast on a link's board: answers the version that it became, and the stamp that the call drew, which
    /// is above all that the pass knew. The pass is one of these boards with calls left, and the link exists.
    /// `gate.inside` is called once while the call holds the link's turn. It waits for the turn.
    ///
    /// `Err`: out of memory; the forecast is given back, the pass is as it was, and the call adds no event to
    /// a log.
    ///
    /// docs/DESIGN.md, "Shared boards".
    pub fn publish<R: Threads + Wait + Sync, G: Gate>(
        &self,
        rt: &R,
        pass: &mut Pass,
        link: u32,
        f: Forecast,
        gate: &G,
    ) -> Result<Sent, (Forecast, AllocError)>
        requires boards { pass.old.boards ≡ self.now.id }
        requires link { link < self.now.links }
        requires left { 0 < pass.old.left }
        ensures ok { IfOk result (λ sent. HasSent pass.old pass.new link f sent) }
        ensures back { IfErr result (λ refused. refused.0 ≡ f) }
        ensures refused { OnErr result (pass.new ≡ pass.old) }
    {
        self.shared.publish(rt, pass, link, f, gate)
    }
}
