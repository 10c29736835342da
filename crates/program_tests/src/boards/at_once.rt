//! Two threads on two links, and on one more each.
ghost use Rattle.std.specs.Prelude.{◌≡◌, ◌+◌, ◌<◌, ◌≤◌, IfOk};
ghost use denote.Param.Send.{IsSync};

use super::example::one_row;
use crate::gates::meeting::{MeetingGate, Place};
use board_model::BoardLog;
use plan_boards::{Boards, Pass};
use std::alloc::{AllocError, Global};
use std::sync::Wait;
use std::test::Fail;
use std::thread::{Threads, join};

/// Reads a link of its own, and then fifty times publishes on one link and reads the other.
fn make_calls<R: Threads + Wait + Sync>(
    rt: &R,
    alloc: Global,
    boards: &Boards,
    mut pass: Pass,
    own: u32,
    other: u32,
    gate: &MeetingGate,
) -> Result<Pass, AllocError>
    requires boards { pass.boards ≡ boards.now.id }
    requires links { (own + 2 < boards.now.links) × (own ≤ 1) × (other < boards.now.links) }
    requires left { 101 ≤ pass.left }
    ensures { IfOk result (λ after. (after.boards ≡ pass.boards) × (after.number ≡ pass.number)) }
{
    boards.read(rt, alloc, &mut pass, own + 2, gate)?;
    for k in 0..50 {
        boards
            .publish(rt, &mut pass, own, one_row(alloc, k)?, gate)
            .map_err(|refused| refused.1)?;
        boards.read(rt, alloc, &mut pass, other, gate)?;
    }
    Ok(pass)
}

/// The logs of two threads. Node 0 reads link 2 and node 1 link 3; then each publishes on the link of its number and reads that of the
/// other.
fn two_threads<R: Threads + Wait + Sync>(
    rt: &R,
    alloc: Global,
    gate: &MeetingGate,
) -> Result<Vec<BoardLog>, AllocError> {
    let (made, mut passes) = Boards::new(alloc, 4, &[101, 101])?;
    let boards = &made;
    let one = passes.pop().ok_or(AllocError)?;
    let zero = passes.pop().ok_or(AllocError)?;
    let (zero, one) = join(
        rt,
        || -> Result<Pass, AllocError>
            requires { IsSync R.row × (zero.boards ≡ boards.now.id) × (boards.now.links ≡ 4) × (101 ≤ zero.left) }
            ensures { IfOk result (λ after. (after.boards ≡ zero.boards) × (after.number ≡ zero.number)) }
        { make_calls(rt, alloc, boards, zero, 0, 1, gate) },
        || -> Result<Pass, AllocError>
            requires { IsSync R.row × (one.boards ≡ boards.now.id) × (boards.now.links ≡ 4) × (101 ≤ one.left) }
            ensures { IfOk result (λ after. (after.boards ≡ one.boards) × (after.number ≡ one.number)) }
        { make_calls(rt, alloc, boards, one, 1, 0, gate) },
    );
    passes.push(zero?)?;
    passes.push(one?)?;
    made.close(alloc, passes).map_err(|refused| refused.2)
}

/// How many events a log has, how many versions there are, and the sum of the stamps.
fn outline(log: &BoardLog) -> (usize, u32, u64) {
    let stamps = log
        .events()
        .iter()
        .fold(0u64, |sum, event| sum.wrapping_add(event.stamp));
    (log.events().len(), log.version(), stamps)
}

/// What the four logs have.
const OUTLINES: [(usize, u32); 4] = [(100, 50), (100, 50), (1, 0), (1, 0)];

#[test]
fn two_turns_are_held_at_once(rt: HostRuntime) -> Result<(), Fail> {
    let gate = MeetingGate::new(Place::Inside, (0, 2), (1, 3));
    let logs = two_threads(&rt, rt.alloc(), &gate)?;
    assert_eq!(rt; gate.met(), [1, 1, 0, 0]);
    let mut stamps = 0u64;
    for (log, wanted) in logs.iter().zip(OUTLINES) {
        let (events, versions, sum) = outline(log);
        assert_eq!(rt; (events, versions), wanted);
        stamps = stamps.wrapping_add(sum);
    }
    assert_eq!(rt; (logs.len(), stamps), (4, 20301));
    Ok(())
}
