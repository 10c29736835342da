//! What is answered otherwise than a case has it.
use crate::calls::{Ending, Failing, NOTHING, call};
use crate::cases::{Case, Wanted, read_case, sum_of};
use crate::groups::{Group, Recorded};
use foundation::items::Items;
use foundation::text::Text;
use std::alloc::{AllocError, Global};
use std::sync::Wait;
use std::thread::Threads;
use std::{io, mem};

/// What differs in a case of some groups; nothing where it is answered as it has to be.
pub(crate) fn difference<R: AllocGlobal + Threads + Wait + Sync>(
    rt: &R,
    alloc: Global,
    groups: &[Group],
    recorded: &Recorded,
) -> io::Result<String> {
    let mut case = read_case(alloc, groups, recorded)?;
    if case.replays.is_empty() {
        return Ok(of_answer(rt, alloc, &mut case)?);
    }
    let mut replay = read_case(alloc, groups, recorded)?;
    Ok(of_replay(rt, alloc, &mut case, &mut replay)?)
}

/// Calls the program with the words of a case over its files, which the case then no longer has.
pub(crate) fn call_case<R: AllocGlobal + Threads + Wait + Sync>(
    rt: &R,
    alloc: Global,
    case: &mut Case,
    failing: Failing,
) -> Result<Ending, AllocError> {
    let files = mem::replace(&mut case.files, Vec::new(alloc));
    call(rt, alloc, &case.words, files, failing)
}

/// What differs in a case with a fixed answer.
fn of_answer<R: AllocGlobal + Threads + Wait + Sync>(
    rt: &R,
    alloc: Global,
    case: &mut Case,
) -> Result<String, AllocError> {
    let found = call_case(rt, alloc, case, NOTHING)?;
    differing(alloc, case, &found)
}

/// What differs where what the first call writes is what the second has to write: the case, and the same once more for the second call.
fn of_replay<R: AllocGlobal + Threads + Wait + Sync>(
    rt: &R,
    alloc: Global,
    case: &mut Case,
    replay: &mut Case,
) -> Result<String, AllocError> {
    let found = call_case(rt, alloc, case, NOTHING)?;
    case.out = Wanted::Bytes(found.out().to_vec(alloc)?);
    turn_to_replay(alloc, replay, found.out())?;
    let text = differing(alloc, case, &found)?;
    if text.is_empty() {
        of_answer(rt, alloc, replay)
    } else {
        Ok(text)
    }
}

/// Makes of a case that of its second call, which reads the text that the first wrote, and has to write it.
fn turn_to_replay(alloc: Global, case: &mut Case, written: &[u8]) -> Result<(), AllocError> {
    case.words = mem::replace(&mut case.replays, Vec::new(alloc));
    if let Some(name) = case.words.last() {
        let name = Text::from_string(String::from_str(alloc, name.as_str())?);
        let content = Items::from_vec(written.to_vec(alloc)?);
        case.files.push((name, content))?;
    }
    case.status = String::from_str(alloc, "0")?;
    case.out = Wanted::Bytes(written.to_vec(alloc)?);
    case.err = Vec::new(alloc);
    Ok(())
}

/// What differs in an answer from that of the case.
pub(crate) fn differing(alloc: Global, case: &Case, found: &Ending) -> Result<String, AllocError> {
    let mut text = String::new(alloc);
    let (code, wanted) = (found.status, case.status.trim());
    if format!(in alloc; "{code}")?.as_str() != wanted {
        write!(text, "status is {code} in place of {wanted}; ")?;
    }
    match &case.out {
        Wanted::Bytes(wanted) => add_difference(&mut text, "stdout", wanted, found.out())?,
        Wanted::Sum(wanted) => add_sum_difference(alloc, &mut text, wanted, found.out())?,
    }
    add_difference(&mut text, "stderr", &case.err, found.err())?;
    Ok(text)
}

/// Adds the first line in which two texts differ, if they do.
fn add_difference(
    text: &mut String,
    part: &str,
    wanted: &[u8],
    found: &[u8],
) -> Result<(), AllocError> {
    if wanted == found {
        return Ok(());
    }
    let found = str::from_utf8(found).unwrap_or("?");
    let mut lines = str::from_utf8(wanted).unwrap_or("?").split('\n');
    for (place, line) in found.split('\n').enumerate() {
        let other = lines.next().unwrap_or("");
        if line != other {
            return Ok(write!(
                text,
                "{part} has {line:?} in place of {other:?} after {place} lines; "
            )?);
        }
    }
    Ok(write!(text, "{part} ends otherwise; ")?)
}

/// How many lines of an answer are shown whose sum differs.
const SHOWN: usize = 3;

/// Adds how the length or the sum of what was written differs, if it does, and the first lines of that.
fn add_sum_difference(
    alloc: Global,
    text: &mut String,
    wanted: &str,
    found: &[u8],
) -> Result<(), AllocError> {
    let sum = sum_of(alloc, found)?;
    if sum.as_str() == wanted {
        return Ok(());
    }
    write!(
        text,
        "stdout has {sum} in place of {wanted}, and begins with"
    )?;
    for line in str::from_utf8(found).unwrap_or("?").split('\n').take(SHOWN) {
        write!(text, " {line:?}")?;
    }
    text.push_str("; ")
}
