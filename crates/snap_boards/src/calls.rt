//! The calls of a pass: a reading, a publishing, and a meeting.
ghost use Rattle.std.specs.Prelude.{◌≡◌, ◌<◌, IfOk, IfErr, IsOk, OnErr, All, map};
ghost use Rattle.link_boards.specs.Passes.{HasRead, HasSent, highest, raised};
ghost use Rattle.snap_boards.specs.Boards.{IsReader, IsWriter};

use crate::boards::{SnapBoards, SnapPass};
use crate::copies::{CopyGate, OpenCopy};
use board_model::{Forecast, Gate, Seen, Sent};
use link_boards::Drawn;
use std::alloc::{AllocError, Global};
use std::sync::Wait;
use std::thread::Threads;

impl SnapBoards {
    /// Reads a link's board: answers the newest version with its forecast, and the stamp that the call drew, which is above
    /// all that the pass knew. The pass is one of these boards with calls left, the link exists, and the pass is its reader.
    /// `gate.inside` is called once while the call holds the link's turn. It waits for the turn. The forecast is copied when the turn is
    /// given back, or under the turn where no place for a reader is free or another version is shown.
    ///
    /// `Err`: out of memory; the pass is as it was, and the call adds no event to a log.
    ///
    /// docs/DESIGN.md, "Shared boards".
    pub fn read<R: Threads + Wait + Sync, G: Gate>(
        &self,
        rt: &R,
        alloc: Global,
        pass: &mut SnapPass,
        link: u32,
        gate: &G,
    ) -> Result<Seen, AllocError>
        requires boards { pass.old.boards ≡ self.now.id }
        requires link { link < self.now.links }
        requires left { 0 < pass.old.left }
        requires reader { IsReader self.now.ends link pass.old.number }
        ensures ok { IfOk result (λ seen. HasRead pass.old pass.new link seen) }
        ensures refused { OnErr result (pass.new ≡ pass.old) }
    {
        self.read_through(rt, alloc, pass, link, gate, &OpenCopy)
    }

    /// Reads a link's board as `read` does, and calls `copy.copying` once inside the copy, which goes on beside the writer; a
    /// copy under the turn does not call it.
    ///
    /// `Err`: out of memory; the pass is as it was, and the call adds no event to a log.
    ///
    /// docs/DESIGN.md, "Boards whose forecasts are read beside the writer".
    pub fn read_through<R: Threads + Wait + Sync, G: Gate, C: CopyGate>(
        &self,
        rt: &R,
        alloc: Global,
        pass: &mut SnapPass,
        link: u32,
        gate: &G,
        copy: &C,
    ) -> Result<Seen, AllocError>
        requires boards { pass.old.boards ≡ self.now.id }
        requires link { link < self.now.links }
        requires left { 0 < pass.old.left }
        requires reader { IsReader self.now.ends link pass.old.number }
        ensures ok { IfOk result (λ seen. HasRead pass.old pass.new link seen) }
        ensures refused { OnErr result (pass.new ≡ pass.old) }
    {
        let Drawn {
            ready,
            version,
            stamp,
        } = self.shared.draw(rt, alloc, pass, link, gate)?;
        Ok(Seen {
            version,
            stamp,
            forecast: ready.finish(rt, copy),
        })
    }

    /// Publishes a forecast on a link's board: answers the version that it became, and the stamp that the call drew, which
    /// is above all that the pass knew. The pass is one of these boards with calls left, the link exists, and the pass is its writer.
    /// `gate.inside` is called once while the call holds the link's turn. It waits for the turn, and, while it holds the turn, for a
    /// reader that still copies an older version.
    ///
    /// `Err`: out of memory; the forecast is given back, the pass is as it was, and the call adds no event to
    /// a log.
    ///
    /// docs/DESIGN.md, "Shared boards".
    pub fn publish<R: Threads + Wait + Sync, G: Gate>(
        &self,
        rt: &R,
        pass: &mut SnapPass,
        link: u32,
        f: Forecast,
        gate: &G,
    ) -> Result<Sent, (Forecast, AllocError)>
        requires boards { pass.old.boards ≡ self.now.id }
        requires link { link < self.now.links }
        requires left { 0 < pass.old.left }
        requires writer { IsWriter self.now.ends link pass.old.number }
        ensures ok { IfOk result (λ sent. HasSent pass.old pass.new link f sent) }
        ensures back { IfErr result (λ refused. refused.0 ≡ f) }
        ensures refused { OnErr result (pass.new ≡ pass.old) }
    {
        self.shared.publish(rt, pass, link, f, gate)
    }

    /// Lets passes of these boards meet: the next stamp of each is then above every stamp that one of them had drawn
    /// before. Each keeps its number, its calls and its calls left. It takes no memory, so it answers `Ok`.
    ///
    /// docs/DESIGN.md, "Shared boards".
    pub fn meet(&self, passes: &mut [SnapPass]) -> Result<(), AllocError>
        requires { All (λ p. p.boards ≡ self.now.id) passes.old }
        ensures ok { IsOk result }
        ensures met { passes.new ≡ map (raised (highest passes.old)) passes.old }
    {
        self.shared.meet(passes)
    }
}
