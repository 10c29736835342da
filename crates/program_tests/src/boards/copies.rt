//! A reading's copy goes on beside the writer: while a copy is under way, a publishing at the same link begins and ends.
ghost use Rattle.std.specs.Prelude.{◌≡◌, Some, ◌∷◌, [], All};
ghost use denote.Param.Send.{IsSync};

use super::example::{ENDS, one_row, second_of};
use crate::gates::wait_for;
use board_model::OpenGate;
use foundation::threads::CrossesThreads;
use link_boards::drop_passes;
use snap_boards::{CopyGate, SnapBoards, SnapPass};
use std::alloc::{AllocError, Global};
use std::sync::Wait;
use std::sync::atomic::{AtomicU64, Ordering};
use std::test::Fail;
use std::thread;
use std::thread::Threads;

/// How many versions are published, each inside a copy of the one before.
const VERSIONS: u32 = 50;

/// A gate in which a copy goes on until a publishing that begins after it has ended. What does not come in some time is *missed*.
#[derive(Drop)]
struct CopyMeeting {
    copying: AtomicU64,
    published: AtomicU64,
    missed: AtomicU64,
    astray: AtomicU64,
}

impl CrossesThreads for CopyMeeting {}

impl CopyMeeting {
    /// The gate before any copy.
    fn new() -> Self {
        CopyMeeting {
            copying: AtomicU64::new(0),
            published: AtomicU64::new(0),
            missed: AtomicU64::new(0),
            astray: AtomicU64::new(0),
        }
    }

    /// How many copies there were, how many publishings, how often one was missed, and how many readings saw what they should not.
    fn counts(&self) -> [u64; 4] {
        let counters = [&self.copying, &self.published, &self.missed, &self.astray];
        counters.map(|counter| counter.load(Ordering::SeqCst))
    }
}

impl CopyGate for CopyMeeting {
    fn copying<R: Wait>(&self, _rt: &R) {
        let number = self.copying.fetch_add(1, Ordering::SeqCst).wrapping_add(1);
        wait_for(&self.published, number, &self.missed);
    }
}

/// Publishes all versions, each inside a copy.
fn publish_all<R: Threads + Wait + Sync>(
    rt: &R,
    alloc: Global,
    boards: &SnapBoards,
    pass: &mut SnapPass,
    gate: &CopyMeeting,
) -> Result<(), AllocError>
    requires boards { (pass.old.boards ≡ boards.now.id) × (boards.now.links ≡ 1) }
    requires ends { boards.now.ends ≡ Some ENDS ∷ [] }
    requires number { pass.old.number ≡ 0 }
{
    for version in 1..=VERSIONS {
        wait_for(&gate.copying, u64::from(version), &gate.missed);
        let forecast = one_row(alloc, version)?;
        if pass.calls_left() == 0 {
            return Err(AllocError);
        }
        boards
            .publish(rt, pass, 0, forecast, &OpenGate)
            .map_err(|refused| refused.1)?;
        gate.published.fetch_add(1, Ordering::SeqCst);
    }
    Ok(())
}

/// Reads as many versions as there are, the empty one first.
fn read_all<R: Threads + Wait + Sync>(
    rt: &R,
    alloc: Global,
    boards: &SnapBoards,
    pass: &mut SnapPass,
    gate: &CopyMeeting,
) -> Result<(), AllocError>
    requires boards { (pass.old.boards ≡ boards.now.id) × (boards.now.links ≡ 1) }
    requires ends { boards.now.ends ≡ Some ENDS ∷ [] }
    requires number { pass.old.number ≡ 1 }
{
    for version in 0..VERSIONS {
        if pass.calls_left() == 0 {
            return Err(AllocError);
        }
        let seen = boards.read_through(rt, alloc, pass, 0, &OpenGate, gate)?;
        if seen.version != version || second_of(&seen.forecast) != version {
            gate.astray.fetch_add(1, Ordering::SeqCst);
        }
    }
    Ok(())
}

/// Pass 0 publishes, and pass 1 reads.
fn call_by_number<R: Threads + Wait + Sync>(
    rt: &R,
    alloc: Global,
    boards: &SnapBoards,
    pass: &mut SnapPass,
    gate: &CopyMeeting,
)
    requires boards { (pass.old.boards ≡ boards.now.id) × (boards.now.links ≡ 1) }
    requires ends { boards.now.ends ≡ Some ENDS ∷ [] }
{
    let number = pass.number();
    let ended = if number == 0 {
        publish_all(rt, alloc, boards, pass, gate)
    } else if number == 1 {
        read_all(rt, alloc, boards, pass, gate)
    } else {
        Ok(())
    };
    if ended.is_err() {
        gate.astray.fetch_add(1, Ordering::SeqCst);
    }
}

/// Each pass makes its calls in a thread of its own.
fn call_at_once<R: Threads + Wait + Sync>(
    rt: &R,
    alloc: Global,
    boards: &SnapBoards,
    passes: &mut [SnapPass],
    gate: &CopyMeeting,
)
    requires links { boards.now.links ≡ 1 }
    requires ends { boards.now.ends ≡ Some ENDS ∷ [] }
    requires passes { All (λ p. p.boards ≡ boards.now.id) passes.old }
{
    thread::for_each_mut(
        rt,
        passes,
        2,
        &|_: usize, pass: &mut SnapPass|
            requires { IsSync R.row × (pass.old.boards ≡ boards.now.id) × (boards.now.links ≡ 1) × (boards.now.ends ≡ Some ENDS ∷ []) }
        { call_by_number(rt, alloc, boards, pass, gate) },
    );
}

/// Two threads at one link: one publishes all versions, and the other reads.
fn two_threads<R: Threads + Wait + Sync>(
    rt: &R,
    alloc: Global,
    gate: &CopyMeeting,
) -> Result<(), AllocError> {
    let (boards, mut passes) = SnapBoards::new(rt, alloc, &[Some(ENDS)], &[VERSIONS, VERSIONS])?;
    call_at_once(rt, alloc, &boards, passes.as_mut_slice(), gate);
    drop_passes(passes);
    boards.abandon(rt);
    Ok(())
}

#[test]
fn a_publishing_ends_while_a_copy_goes_on(rt: HostRuntime) -> Result<(), Fail> {
    let gate = CopyMeeting::new();
    two_threads(&rt, rt.alloc(), &gate)?;
    let versions = u64::from(VERSIONS);
    assert_eq!(rt; gate.counts(), [versions, versions, 0, 0]);
    Ok(())
}
