//! The boards and their passes are made, and closed.
ghost use Rattle.std.specs.Prelude.{◌≡◌, ◌≤◌, ◌<◌, ◌^◌, [], IfOk, IfErr, All, length};
ghost use Rattle.std.specs.List.{sum};
ghost use Rattle.board_model.specs.Boards.{most_versions};
ghost use Rattle.link_boards.specs.Passes.{AreAllPasses, AreLogsOfPasses, fresh_passes};

use board_model::BoardLog;
use foundation::threads::CrossesThreads;
use std::alloc::{AllocError, Global};
use std::marker::Model;

/// The right of one thread to make calls on the boards. Contracts see the boards that it is of, its number, its calls left,
/// the least stamp that it may draw next, and its own calls.
///
/// docs/DESIGN.md, "Shared boards".
pub type Pass = link_boards::Pass<BoardLog>;

/// The boards of all links, which threads share. Contracts see which boards they are, and how many links and passes they
/// have.
///
/// docs/DESIGN.md, "Shared boards".
#[derive(Drop)]
pub struct Boards {
    pub(crate) shared: link_boards::Boards<BoardLog>,
}

impl Model for Boards {
    ghost use Rattle.link_boards.specs.Passes.{BoardsView};

    ghost Value = { BoardsView };

    ghost view = { λ b. b.shared };
}

impl CrossesThreads for Boards {}

/// Empty logs.
fn empty_logs(alloc: Global, links: u32) -> Result<Vec<BoardLog>, AllocError>
    ensures { IfOk result (λ v. (length v.items ≡ links) × All (λ log. log.events ≡ []) v.items) }
{
    let mut logs = Vec::with_capacity(alloc, links as usize)?;
    for _ in 0..links {
        logs.push(BoardLog::new(alloc))?;
    }
    Ok(logs)
}

impl Boards {
    /// Boards with one empty log for each link, and a pass for each of these numbers of calls left, with the numbers 0, 1, ..
    /// in their order. There is at least one link and one pass, fewer than 2^32 passes, and at most 4,000,000,000 calls in all.
    ///
    /// `Err`: out of memory.
    ///
    /// docs/DESIGN.md, "Shared boards".
    pub fn new(alloc: Global, links: u32, calls: &[u32]) -> Result<(Boards, Vec<Pass>), AllocError>
        requires links { 1 ≤ links }
        requires passes { (1 ≤ length calls.now) × (length calls.now < 2 ^ 32) }
        requires calls { sum calls.now ≤ most_versions }
        ensures boards { IfOk result (λ r. (r.0.links ≡ links) × (r.0.passes ≡ length calls.now)) }
        ensures passes { IfOk result (λ r. r.1.items ≡ fresh_passes r.0.id calls.now) }
        ensures all { IfOk result (λ r. AreAllPasses r.0 r.1.items) }
    {
        let logs = empty_logs(alloc, links)?;
        match link_boards::Boards::over(alloc, logs, calls) {
            Ok((shared, all)) => Ok((Boards { shared }, all)),
            Err(_) => Err(AllocError),
        }
    }

    /// These boards as those of any form.
    ///
    /// docs/DESIGN.md, "Shared boards".
    pub fn shared(&self) -> &link_boards::Boards<BoardLog>
        ensures { result.now ≡ self.now }
    {
        &self.shared
    }

    /// Closes the boards with all their passes, by number, into the logs of the passes' calls: one for each link, legal,
    /// with each call once, and the calls agree with it.
    ///
    /// `Err`: out of memory; it gives the boards and the passes back.
    ///
    /// docs/DESIGN.md, "Shared boards".
    pub fn close(
        self,
        alloc: Global,
        passes: Vec<Pass>,
    ) -> Result<Vec<BoardLog>, (Boards, Vec<Pass>, AllocError)>
        requires { AreAllPasses self passes.items }
        ensures ok { IfOk result (λ logs. AreLogsOfPasses self.links passes.items logs.items) }
        ensures refused { IfErr result (λ refused. (refused.0 ≡ self) × (refused.1.items ≡ passes.items)) }
    {
        let Boards { shared } = self;
        match shared.into_slots(alloc, passes) {
            Ok(logs) => Ok(logs),
            Err((shared, passes, error)) => Err((Boards { shared }, passes, error)),
        }
    }
}
