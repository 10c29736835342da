//! Cases once more, in which calls of the shelf and of the sinks fail.
use crate::calls::{Ending, Failing, NO_PUT, NOTHING};
use crate::cases::{Case, Wanted, read_case};
use crate::differences::{call_case, differing};
use crate::groups::{Group, Recorded};
use outside_world::SinkFail;
use std::alloc::{AllocError, Global};
use std::io;
use std::sync::Wait;
use std::thread::Threads;

/// How the put to `err` goes: it is whole, or fails with none or one byte kept.
const ERRS: [SinkFail; 3] = [
    NO_PUT,
    SinkFail { call: 1, kept: 0 },
    SinkFail { call: 1, kept: 1 },
];

/// What was found in the runs of a case in which a call fails.
#[derive(Drop)]
pub(crate) struct Runs {
    /// How many runs there were.
    pub(crate) count: u64,
    /// What differs in the first of them that ends otherwise than it has to; nothing where all do.
    pub(crate) text: String,
}

/// Does a case of some groups with each of its fetches failing in turn, and with each of its puts failing in turn, keeping no byte or
/// one: each with a put to `err` that is whole and with one that fails; and with this alone.
pub(crate) fn run_failing<R: AllocGlobal + Threads + Wait + Sync>(
    rt: &R,
    alloc: Global,
    groups: &[Group],
    recorded: &Recorded,
) -> io::Result<Runs> {
    let mut whole = read_case(alloc, groups, recorded)?;
    let found = call_case(rt, alloc, &mut whole, NOTHING)?;
    let mut runs = Runs {
        count: 0,
        text: String::new(alloc),
    };
    for &failing in &ways(alloc, found.fetches, found.out.calls)? {
        let mut case = read_case(alloc, groups, recorded)?;
        runs.count = runs.count.saturating_add(1);
        runs.text = of_failing(rt, alloc, &mut case, found.out(), failing)?;
        if !runs.text.is_empty() {
            write!(runs.text, "where {failing:?}")?;
            break;
        }
    }
    Ok(runs)
}

/// The ways in which a case fails that has this number of fetches and of puts to `out`.
fn ways(alloc: Global, fetches: u32, puts: u32) -> Result<Vec<Failing>, AllocError> {
    let mut ways = Vec::new(alloc);
    for err in ERRS {
        let alone = Failing { err, ..NOTHING };
        if err.call > 0 {
            ways.push(alone)?;
        }
        add_fetches(&mut ways, fetches, alone)?;
        add_puts(&mut ways, puts, alone)?;
    }
    Ok(ways)
}

/// Adds a way in which each of the fetches fails, beside what fails already.
fn add_fetches(ways: &mut Vec<Failing>, fetches: u32, with: Failing) -> Result<(), AllocError> {
    for fetch in 1..=fetches {
        ways.push(Failing { fetch, ..with })?;
    }
    Ok(())
}

/// Adds two ways in which each of the puts to `out` fails, beside what fails already.
fn add_puts(ways: &mut Vec<Failing>, puts: u32, with: Failing) -> Result<(), AllocError> {
    for call in 1..=puts {
        for kept in [0, 1] {
            let out = SinkFail { call, kept };
            ways.push(Failing { out, ..with })?;
        }
    }
    Ok(())
}

/// What differs in a case that fails in this way. Without, this is written to `out`.
fn of_failing<R: AllocGlobal + Threads + Wait + Sync>(
    rt: &R,
    alloc: Global,
    case: &mut Case,
    whole: &[u8],
    failing: Failing,
) -> Result<String, AllocError> {
    let found = call_case(rt, alloc, case, failing)?;
    set_answer(alloc, case, &found, whole, failing)?;
    let mut text = differing(alloc, case, &found)?;
    if goes_on(&found, failing) {
        text.push_str("a call comes after one that failed; ")?;
    }
    Ok(text)
}

/// Whether a run fetches or puts on after a call that failed.
fn goes_on(found: &Ending, failing: Failing) -> bool {
    let fetches_on = failing.fetch > 0 && found.fetches != failing.fetch;
    let puts_on = failing.out.call > 0 && found.out.calls != failing.out.call;
    fetches_on || puts_on || found.err.calls > 1
}

/// Sets in a case how it has to end where it fails in this way: without, `whole` is written to `out`. With a put that fails, the front
/// is wanted that is as long as what was written, and not the whole.
fn set_answer(
    alloc: Global,
    case: &mut Case,
    found: &Ending,
    whole: &[u8],
    failing: Failing,
) -> Result<(), AllocError> {
    if failing.fetch > 0 {
        let fetch = failing.fetch;
        case.status = String::from_str(alloc, "4")?;
        case.out = Wanted::Bytes(Vec::new(alloc));
        case.err = format!(in alloc; "signal: cannot read {fetch}\n")?.into_bytes();
    } else if failing.out.call > 0 {
        let most = whole.len().saturating_sub(1);
        case.status = String::from_str(alloc, "5")?;
        let front = &whole[..found.out().len().min(most)];
        case.out = Wanted::Bytes(front.to_vec(alloc)?);
        case.err = Vec::from_slice(alloc, b"signal: cannot write\n")?;
    } else if !case.replays.is_empty() {
        case.out = Wanted::Bytes(found.out().to_vec(alloc)?);
    }
    if failing.err.call > 0 {
        case.err.truncate(failing.err.kept);
    }
    Ok(())
}
