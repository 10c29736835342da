//! Three threads on one link, two of which wait while the third is inside its call.
ghost use Rattle.std.specs.Prelude.{◌≡◌, ◌+◌, ◌<◌, ◌≤◌, All};
ghost use denote.Param.Send.{IsSync};

use super::example::one_row;
use crate::gates::holding::HoldingGate;
use board_model::Gate;
use plan_boards::{Boards, Pass};
use std::alloc::{AllocError, Global};
use std::sync::Wait;
use std::test::Fail;
use std::thread;
use std::thread::Threads;

/// The link of all calls. It is not the first one.
const LINK: u32 = 2;

/// The calls of a round: a reading and a publishing.
fn make_round<R: Threads + Wait + Sync>(
    rt: &R,
    alloc: Global,
    boards: &Boards,
    pass: &mut Pass,
    round: u32,
    gate: &HoldingGate,
) -> Result<(), AllocError>
    requires boards { (pass.old.boards ≡ boards.now.id) × (boards.now.links ≡ 4) }
    requires left { 2 ≤ pass.old.left }
    ensures { pass.new.boards ≡ pass.old.boards }
{
    let node = pass.number();
    let forecast = one_row(alloc, round)?;
    gate.before(rt, node, round, LINK, false);
    boards.read(rt, alloc, pass, LINK, gate)?;
    gate.end(node);
    gate.before(rt, node, round, LINK, true);
    boards
        .publish(rt, pass, LINK, forecast, gate)
        .map_err(|refused| refused.1)?;
    gate.end(node);
    Ok(())
}

/// A hundred rounds, until memory runs out.
fn make_rounds<R: Threads + Wait + Sync>(
    rt: &R,
    alloc: Global,
    boards: &Boards,
    pass: &mut Pass,
    gate: &HoldingGate,
)
    requires boards { (pass.old.boards ≡ boards.now.id) × (boards.now.links ≡ 4) }
{
    for round in 0..100 {
        if pass.calls_left() < 2 || make_round(rt, alloc, boards, pass, round, gate).is_err() {
            return;
        }
    }
}

/// Each pass makes its rounds in a thread of its own.
fn make_rounds_at_once<R: Threads + Wait + Sync>(
    rt: &R,
    alloc: Global,
    boards: &Boards,
    passes: &mut [Pass],
    gate: &HoldingGate,
)
    requires links { boards.now.links ≡ 4 }
    requires passes { All (λ p. p.boards ≡ boards.now.id) passes.old }
{
    thread::for_each_mut(
        rt,
        passes,
        3,
        &|_: usize, pass: &mut Pass|
            requires { IsSync R.row × (pass.old.boards ≡ boards.now.id) × (boards.now.links ≡ 4) }
        { make_rounds(rt, alloc, boards, pass, gate) },
    );
}

/// Three threads, each with 200 calls.
fn three_threads<R: Threads + Wait + Sync>(
    rt: &R,
    alloc: Global,
    gate: &HoldingGate,
) -> Result<(), AllocError> {
    let (boards, mut passes) = Boards::new(alloc, 4, &[200, 200, 200])?;
    make_rounds_at_once(rt, alloc, &boards, passes.as_mut_slice(), gate);
    Ok(())
}

// A wake that is lost leaves a thread asleep, so that this test does not end: rt ends it after 60 seconds, and that is a failure.
#[test]
fn two_wait_for_a_turn_and_are_woken(rt: HostRuntime) -> Result<(), Fail> {
    let gate = HoldingGate::new(LINK);
    three_threads(&rt, rt.alloc(), &gate)?;
    assert_eq!(rt; gate.counts(), [300, 300, 400, 0, 0]);
    Ok(())
}
