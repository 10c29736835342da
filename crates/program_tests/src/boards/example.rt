//! A worked example at both forms of boards: one link, two passes, four calls.
ghost use Rattle.std.specs.Prelude.{◌≡◌, ◌<◌, ◌∷◌, [], IfOk, OnErr};
ghost use Rattle.link_boards.specs.Passes.{AreAllPasses, HasRead, HasSent, fresh_passes};

use board_model::{BoardKind, BoardLog, Forecast, OpenGate, Row, Seen, Sent};
use link_boards::{Boards, LinkSlot, Pass};
use snap_boards::{Ends, SnapBoards};
use std::alloc::{AllocError, Global};
use std::sync::Wait;
use std::test::Fail;
use std::thread::Threads;

/// Half a vehicle in this second.
pub(crate) fn one_row(alloc: Global, second: u32) -> Result<Forecast, AllocError> {
    let mut forecast = Forecast::empty(alloc);
    forecast.push(Row {
        second: second.min(1000),
        amount: 500,
    })?;
    Ok(forecast)
}

/// The ends of the link.
pub(crate) const ENDS: Ends = Ends {
    writer: 0,
    reader: 1,
};

/// The version and the stamp of each call.
type Answers = [(u32, u64); 4];

/// A reading of the link, tried once more where memory is refused.
fn read<S: LinkSlot, R: Threads + Wait + Sync>(
    rt: &R,
    alloc: Global,
    pass: &mut Pass<S>,
    boards: &Boards<S>,
) -> Result<Seen, AllocError>
    requires boards { (pass.old.boards ≡ boards.now.id) × (0 < boards.now.links) }
    requires left { 0 < pass.old.left }
    ensures ok { IfOk result (λ seen. HasRead pass.old pass.new 0 seen) }
    ensures refused { OnErr result (pass.new ≡ pass.old) }
{
    match boards.read(rt, alloc, pass, 0, &OpenGate) {
        Ok(seen) => Ok(seen),
        Err(AllocError) => boards.read(rt, alloc, pass, 0, &OpenGate),
    }
}

/// A publishing on the link, tried once more where memory is refused.
fn publish<S: LinkSlot, R: Threads + Wait + Sync>(
    rt: &R,
    pass: &mut Pass<S>,
    boards: &Boards<S>,
    forecast: Forecast,
) -> Result<Sent, AllocError>
    requires boards { (pass.old.boards ≡ boards.now.id) × (0 < boards.now.links) }
    requires left { 0 < pass.old.left }
    ensures ok { IfOk result (λ sent. HasSent pass.old pass.new 0 forecast sent) }
    ensures refused { OnErr result (pass.new ≡ pass.old) }
{
    match boards.publish(rt, pass, 0, forecast, &OpenGate) {
        Ok(sent) => Ok(sent),
        Err((forecast, AllocError)) => boards
            .publish(rt, pass, 0, forecast, &OpenGate)
            .map_err(|refused| refused.1),
    }
}

/// The four calls, a reading, a publishing, a reading, and after a meeting a publishing: the version and the stamp of each.
fn four_calls<S: LinkSlot, R: Threads + Wait + Sync>(
    rt: &R,
    alloc: Global,
    passes: &mut [Pass<S>],
    boards: &Boards<S>,
    forecasts: (Forecast, Forecast),
) -> Result<Answers, AllocError>
    requires boards { (boards.now.links ≡ 1) × (boards.now.passes ≡ 2) }
    requires passes { passes.old ≡ fresh_passes boards.now.id (10 ∷ 10 ∷ []) }
    ensures { AreAllPasses boards.now passes.new }
{
    let seen = read(rt, alloc, &mut passes[1], boards)?;
    let first = (seen.version, seen.stamp);
    let sent = publish(rt, &mut passes[0], boards, forecasts.0)?;
    let seen = read(rt, alloc, &mut passes[1], boards)?;
    let third = (seen.version, seen.stamp);
    boards.meet(passes)?;
    let last = publish(rt, &mut passes[0], boards, forecasts.1)?;
    Ok([
        first,
        (sent.version, sent.stamp),
        third,
        (last.version, last.stamp),
    ])
}

/// What the four calls answer, and the log after them.
type Told = (Answers, Vec<BoardLog>);

/// What is told at boards whose slots are the logs.
fn told_at_boards<R: Threads + Wait + Sync>(rt: &R, alloc: Global) -> Result<Told, AllocError> {
    let forecasts = (one_row(alloc, 22)?, one_row(alloc, 23)?);
    let (boards, mut passes) = plan_boards::Boards::new(alloc, 1, &[10, 10])?;
    let shared = boards.shared();
    let answers = four_calls(rt, alloc, passes.as_mut_slice(), shared, forecasts)?;
    let logs = boards.close(alloc, passes).map_err(|refused| refused.2)?;
    Ok((answers, logs))
}

/// What is told at boards whose forecasts are read beside the writer. They are closed whether the calls succeed or not.
fn told_at_snap_boards<R: Threads + Wait + Sync>(
    rt: &R,
    alloc: Global,
) -> Result<Told, AllocError> {
    let forecasts = (one_row(alloc, 22)?, one_row(alloc, 23)?);
    let (boards, mut passes) = SnapBoards::new(rt, alloc, &[Some(ENDS)], &[10, 10])?;
    let shared = boards.shared();
    let answers = four_calls(rt, alloc, passes.as_mut_slice(), shared, forecasts);
    let logs = boards.close(rt, alloc, passes)?;
    Ok((answers?, logs))
}

/// What the four calls answer.
const ANSWERS: Answers = [(0, 0), (1, 1), (1, 2), (2, 3)];

/// The stamp of an event, its node, and the version that was read, or 0 and the second of the row that was published.
type Entry = (u64, u32, u32, u32);

/// The events of a log.
fn entries(alloc: Global, log: &BoardLog) -> Result<Vec<Entry>, AllocError> {
    let mut entries = Vec::new(alloc);
    for event in log.events() {
        let (version, second) = match &event.kind {
            BoardKind::Read(version) => (*version, 0),
            BoardKind::Publish(forecast) => (0, second_of(forecast)),
        };
        entries.push((event.stamp, event.node, version, second))?;
    }
    Ok(entries)
}

/// The second of the first row, 0 where there is none.
pub(crate) fn second_of(forecast: &Forecast) -> u32 {
    forecast.rows().first().map(|row| row.second).unwrap_or(0)
}

/// What the log then has.
const ENTRIES: &[Entry] = &[(0, 1, 0, 0), (1, 0, 0, 22), (2, 1, 1, 0), (3, 0, 0, 23)];

/// Whether the answers are these, and the one log tells these events.
fn is_example(alloc: Global, told: &Told) -> Result<bool, AllocError> {
    let [log] = told.1.as_slice() else {
        return Ok(false);
    };
    let entries = match entries(alloc, log) {
        Ok(entries) => entries,
        Err(AllocError) => entries(alloc, log)?,
    };
    Ok(told.0 == ANSWERS && entries.as_slice() == ENTRIES)
}

/// The four calls and their log. It holds whichever allocation is refused, once: a call is tried again where it is its own, and its
/// refusal leaves no event.
#[test]
fn four_calls_whichever_is_refused(rt: HostRuntime) -> Result<(), Fail> {
    let alloc = rt.alloc();
    let told = match told_at_boards(&rt, alloc) {
        Ok(told) => told,
        Err(AllocError) => told_at_boards(&rt, alloc)?,
    };
    assert!(rt; is_example(alloc, &told)?);
    Ok(())
}

/// The same at boards whose forecasts are read beside the writer.
#[test]
fn four_calls_beside_whichever_is_refused(rt: HostRuntime) -> Result<(), Fail> {
    let alloc = rt.alloc();
    let told = match told_at_snap_boards(&rt, alloc) {
        Ok(told) => told,
        Err(AllocError) => told_at_snap_boards(&rt, alloc)?,
    };
    assert!(rt; is_example(alloc, &told)?);
    Ok(())
}
