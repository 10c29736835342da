//! The boards and their passes are made, and closed.
ghost use Rattle.std.specs.Prelude.{◌≡◌, ◌≤◌, ◌<◌, ◌^◌, [], IfOk, All, length, map, vec_capacity};
ghost use Rattle.std.specs.List.{sum};
ghost use Rattle.board_model.specs.Boards.{most_versions};
ghost use Rattle.link_boards.specs.Passes.{AreAllPasses, AreLogsOfPasses, fresh_passes};
ghost use Rattle.snap_boards.specs.{Boards.AreAllEnds, Boards.shared_of, Slots.is_settled};

use crate::ends::Ends;
use crate::slots::SnapLog;
use board_model::BoardLog;
use foundation::threads::CrossesThreads;
use link_boards::{Boards, drop_passes};
use std::alloc::{AllocError, Global};
use std::marker::Model;
use std::sync::Wait;

/// The right of one thread to make calls on the boards. Contracts see of it what they see of a pass of any form of boards: the boards that
/// it is of, its number, its calls left, the least stamp that it may draw next, and its own calls.
///
/// docs/DESIGN.md, "Shared boards".
pub type SnapPass = link_boards::Pass<SnapLog>;

/// The boards of all links, which threads share. Contracts see which boards they are, how many links and passes they have, and the ends
/// of each link. Whoever has made them closes them: they are not `Drop`.
///
/// docs/DESIGN.md, "Boards whose forecasts are read beside the writer".
pub struct SnapBoards {
    pub(crate) shared: Boards<SnapLog>,
    ends: Vec<Option<Ends>>,
}

impl Model for SnapBoards {
    ghost use Rattle.snap_boards.specs.Boards.{SnapBoardsView, snap_boards_view};

    ghost Value = { SnapBoardsView };

    ghost view = { λ b. snap_boards_view b.shared b.ends.items };
}

impl CrossesThreads for SnapBoards {}

/// Types whose values are moved to other threads.
trait Moves: Send {}

impl Moves for SnapPass {}

/// Ends slots.
fn end_all<R: Wait>(rt: &R, mut slots: Vec<SnapLog>) {
    while let Some(slot) = slots.pop() {
        drop(slot.end(rt));
    }
    slots.destroy_empty();
}

/// Slots with empty logs.
fn make_all<R: Wait>(rt: &R, alloc: Global, links: usize) -> Result<Vec<SnapLog>, AllocError>
    ensures { IfOk result (λ v. (length v.items ≡ links) × All (λ s. (s.events ≡ []) × is_settled s) v.items) }
{
    let mut slots = Vec::with_capacity(alloc, links)?;
    for _ in 0..links {
        match SnapLog::new(alloc) {
            Ok(slot) => slots.push_reserved(slot),
            Err(error) => {
                end_all(rt, slots);
                return Err(error);
            }
        }
    }
    Ok(slots)
}

/// Boards over slots, and their passes. The slots end where memory runs out.
fn open<R: Wait>(
    rt: &R,
    alloc: Global,
    slots: Vec<SnapLog>,
    calls: &[u32],
) -> Result<(Boards<SnapLog>, Vec<SnapPass>), AllocError>
    requires links { length slots.items < 2 ^ 32 }
    requires slots { All (λ s. (s.events ≡ []) × is_settled s) slots.items }
    requires passes { (1 ≤ length calls.now) × (length calls.now < 2 ^ 32) }
    requires calls { sum calls.now ≤ most_versions }
    ensures boards { IfOk result (λ r. (r.0.links ≡ length slots.items) × (r.0.passes ≡ length calls.now)) }
    ensures passes { IfOk result (λ r. r.1.items ≡ fresh_passes r.0.id calls.now) }
    ensures all { IfOk result (λ r. AreAllPasses r.0 r.1.items) }
{
    match Boards::over(alloc, slots, calls) {
        Ok(made) => Ok(made),
        Err(slots) => {
            end_all(rt, slots);
            Err(AllocError)
        }
    }
}

/// Ends boards whose logs nobody wants. It waits for readers.
fn end_boards<R: Wait>(rt: &R, boards: Boards<SnapLog>) {
    boards.take_apart(|slot| drop(slot.end(rt)));
}

/// Ends boards that memory does not suffice to close, and their passes.
fn give_up<R: Wait>(
    rt: &R,
    boards: Boards<SnapLog>,
    passes: Vec<SnapPass>,
    error: AllocError,
) -> AllocError {
    drop_passes(passes);
    end_boards(rt, boards);
    error
}

/// The logs of slots, for which there is capacity.
fn into_logs<R: Wait>(rt: &R, mut slots: Vec<SnapLog>, mut logs: Vec<BoardLog>) -> Vec<BoardLog>
    requires { (logs.items ≡ []) × (length slots.items ≤ vec_capacity logs) }
    ensures { map (λ log. log.events) result.items ≡ map (λ slot. slot.events) slots.items }
{
    while let Some(slot) = slots.pop() {
        let Ok(()) = logs.insert(0, slot.end(rt)) else {
            unreachable!();
        };
    }
    slots.destroy_empty();
    logs
}

/// Closes boards into the logs of the passes' calls, for which there is capacity.
fn close_into<R: Wait>(
    rt: &R,
    alloc: Global,
    boards: Boards<SnapLog>,
    passes: Vec<SnapPass>,
    logs: Vec<BoardLog>,
) -> Result<Vec<BoardLog>, AllocError>
    requires passes { AreAllPasses boards passes.items }
    requires logs { (logs.items ≡ []) × (boards.links ≤ vec_capacity logs) }
    ensures { IfOk result (λ logs. AreLogsOfPasses boards.links passes.items logs.items) }
{
    match boards.into_slots(alloc, passes) {
        Ok(slots) => Ok(into_logs(rt, slots, logs)),
        Err((boards, passes, error)) => Err(give_up(rt, boards, passes, error)),
    }
}

impl SnapBoards {
    /// Boards with one empty log for each link, and a pass for each of these numbers of calls left, with the numbers 0, 1, ..
    /// in their order. There is at least one link and one pass, fewer than 2^32 links and passes, and at most 4,000,000,000 calls in
    /// all. Each link has its ends or none; in all ends writer and reader are two of the passes.
    ///
    /// `Err`: out of memory. It waits.
    ///
    /// docs/DESIGN.md, "Boards whose forecasts are read beside the writer".
    pub fn new<R: Wait>(
        rt: &R,
        alloc: Global,
        ends: &[Option<Ends>],
        calls: &[u32],
    ) -> Result<(SnapBoards, Vec<SnapPass>), AllocError>
        requires links { (1 ≤ length ends.now) × (length ends.now < 2 ^ 32) }
        requires passes { (1 ≤ length calls.now) × (length calls.now < 2 ^ 32) }
        requires calls { sum calls.now ≤ most_versions }
        requires ends { AreAllEnds (length calls.now) ends.now }
        ensures boards { IfOk result (λ r. (r.0.links ≡ length ends.now) × (r.0.passes ≡ length calls.now)) }
        ensures ends { IfOk result (λ r. r.0.ends ≡ ends.now) }
        ensures passes { IfOk result (λ r. r.1.items ≡ fresh_passes r.0.id calls.now) }
        ensures all { IfOk result (λ r. AreAllPasses (shared_of r.0) r.1.items) }
    {
        let kept = Vec::from_slice(alloc, ends)?;
        let slots = make_all(rt, alloc, ends.len())?;
        let (shared, all) = open(rt, alloc, slots, calls)?;
        Ok((SnapBoards { shared, ends: kept }, all))
    }

    /// These boards as those of any form. Calls through them ask for no ends: who plays rounds there takes each link's ends itself.
    ///
    /// docs/DESIGN.md, "Shared boards".
    pub fn shared(&self) -> &Boards<SnapLog>
        ensures { result.now ≡ shared_of self.now }
    {
        &self.shared
    }

    /// Closes the boards with all their passes, by number, into the logs of the passes' calls: one for each link, legal,
    /// with each call once, and the calls agree with it.
    ///
    /// `Err`: out of memory; the boards are closed then, too. It waits for readers.
    ///
    /// docs/DESIGN.md, "Shared boards".
    pub fn close<R: Wait>(
        self,
        rt: &R,
        alloc: Global,
        passes: Vec<SnapPass>,
    ) -> Result<Vec<BoardLog>, AllocError>
        requires { AreAllPasses (shared_of self) passes.items }
        ensures { IfOk result (λ logs. AreLogsOfPasses self.links passes.items logs.items) }
    {
        let SnapBoards { shared, ends: _ } = self;
        match Vec::with_capacity(alloc, shared.link_count()) {
            Ok(logs) => close_into(rt, alloc, shared, passes, logs),
            Err(error) => Err(give_up(rt, shared, passes, error)),
        }
    }

    /// Ends boards whose logs nobody wants, for a caller whose passes are gone. It waits for readers, and takes no memory.
    ///
    /// docs/DESIGN.md, "Boards whose forecasts are read beside the writer".
    pub fn abandon<R: Wait>(self, rt: &R) {
        let SnapBoards { shared, ends: _ } = self;
        end_boards(rt, shared);
    }
}
