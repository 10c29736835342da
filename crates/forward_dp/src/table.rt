//! The table, cell by cell: a cell holds the rows with the same counts, and follows from the cells with one less.

ghost use Rattle.std.specs.Prelude.{◌≡◌, ◌↔◌, ℕ, ◌+◌, ◌*◌, ◌<◌, ◌≤◌, [], ◌∷◌, List, length, slice_index, sum, IfNone, IfOk, IfSome, IsTrue, OnOk, true};
ghost use Rattle.schedule_meaning.specs.Instances.{IsInstance};
ghost use Rattle.dp_certificate.specs.{Limits.HasKeysWithin, Limits.IsSomeDelay, Prefixes.Key};
ghost use Rattle.forward_dp.specs.{Groups.IsEmpty, Numbers.counts_number, Tables.HasEntries, Tables.IsCellMade, Tables.IsCellReady, Tables.IsFrom, Tables.IsGroupFilled, Tables.IsGroupReady, Tables.IsLastCounts, Tables.IsNextCounts};
ghost use Rattle.forward_dp.specs.{Tables.HasNone, Tables.IsTableMade, Tables.all_rows, declared.rows.Row.Row};

use crate::cell_ends::CellEnds;
use crate::live_rows::{DroppedRows, Rows};
use crate::{Order, Reached, Row};
use dp_certificate::{Entry, list_lengths};
use foundation::steps::Steps;
use schedule_meaning::Instance;
use std::alloc::AllocError;
use std::sync::ledger::Ledger;
use switch_rules::ways;

/// The greatest capacity for rows from the start.
const MOST_CAPACITY: u32 = 32_768;

/// The greatest step of a search, in rows.
const MOST_STEP: usize = 65_535;

/// Makes the whole table out of no rows: a row for each key that a fit prefix reaches. Where there is a limit, which
/// is the delay of a feasible sequence, only with what is within it.
pub(crate) fn table<L: Ledger>(
    i: &Instance,
    limit: Option<u64>,
    past: &mut DroppedRows,
    reached: &mut Reached,
    rows: &mut Rows,
    cells: &mut CellEnds,
    steps: &mut Steps<L>,
) -> Result<(), AllocError>
    requires delay { IsSomeDelay i.now limit }
    requires past { HasEntries past.old [] }
    requires empty { IsEmpty reached.old }
    requires none { HasNone rows.old }
    ensures whole { OnOk result ((gone : List Row) × HasEntries past.new gone × IsTableMade i.now limit gone rows.new) }
    ensures keeps_entries { past.new.keeps_entries ≡ past.old.keeps_entries }
    ensures empty { OnOk result (IsEmpty reached.new) }
    ensures servings { (keys : List Key) → HasKeysWithin i.now limit keys
        → steps.new ≤ steps.old + length i.now.plan * length keys }
{
    let last = list_lengths(i);
    cells.begin(&last)?;
    rows.latest.push(first_row(i))?;
    let mut counts = [0; 4];
    let mut ends = [0; 4];
    while let Some(next) = next_counts(&counts, &last) {
        rows.enter(&counts, &next, past)?;
        let task = Task { i, limit, cells };
        fill_cell(&task, &next, &mut ends, reached, rows, past, steps)?;
        cells.push(rows.count())?;
        counts = next;
    }
    Ok(())
}

/// For how many rows memory is reserved from the start, so that the lists of a large table lie in pages of their own
/// and seldom move: for as many as there are orders, up to a bound. Only what is filled takes memory.
pub(crate) fn row_capacity(i: &Instance) -> usize
    ensures { result ≤ 32768 }
{
    let mut counts = [0; 4];
    let counts = &mut counts[..i.plan().count() as usize];
    i.count(counts);
    ways(counts).min(MOST_CAPACITY) as usize
}

/// The row of the sequence of no places.
pub(crate) fn first_row(i: &Instance) -> Row
    ensures row { result ≡ record {
      entry = record {
        counts = 0 ∷ 0 ∷ 0 ∷ 0 ∷ [];
        phase = i.now.head.phase;
        since = i.now.head.since;
        at = i.now.head.at;
        delay = 0;
      };
      order = 0;
    } }
    ensures instance { IsInstance i.now }
{
    let head = i.head();
    Row {
        entry: Entry {
            counts: [0; 4],
            phase: head.phase,
            since: head.since,
            at: head.at,
            delay: 0,
        },
        order: Order::none(),
    }
}

/// The next counts, in their order, none of which is above the last; none after the last.
fn next_counts(counts: &[u8; 4], last: &[u8; 4]) -> Option<[u8; 4]>
    requires small { (k : ℕ) → slice_index last.now k < 64 }
    requires within { (k : ℕ) → slice_index counts.now k ≤ slice_index last.now k }
    ensures some { IfSome result (IsNextCounts last.now counts.now) }
    ensures none { IfNone result ((c : List ℕ) → ((k : ℕ) → slice_index c k ≤ slice_index last.now k)
        → counts_number c ≤ counts_number counts.now) }
{
    let [first, second, third, fourth] = *counts;
    if fourth < last[3] {
        return Some([first, second, third, fourth + 1]);
    }
    if third < last[2] {
        return Some([first, second, third + 1, 0]);
    }
    if second < last[1] {
        return Some([first, second + 1, 0, 0]);
    }
    if first < last[0] {
        return Some([first + 1, 0, 0, 0]);
    }
    None
}

/// What a table is made for.
#[derive(Clone, Copy)]
struct Task<'a> {
    /// The instance.
    i: &'a Instance,
    /// What a row, with what is left at the least, may cost, where there is a limit.
    limit: Option<u64>,
    /// Where the cells end that are filled.
    cells: &'a CellEnds,
}

/// The rows with the same counts and the same green phase.
#[derive(Clone, Copy)]
struct Group {
    counts: [u8; 4],
    phase: u8,
    /// The rows from which they are reached stand from this place on.
    from: usize,
}

/// Appends the rows with these counts to the others. For each phase it is known where the last rows end from which the
/// phase was served.
fn fill_cell<L: Ledger>(
    task: &Task<'_>,
    counts: &[u8; 4],
    ends: &mut [usize; 4],
    reached: &mut Reached,
    rows: &mut Rows,
    past: &mut DroppedRows,
    steps: &mut Steps<L>,
) -> Result<(), AllocError>
    requires cell { (gone : List Row) × HasEntries past.old gone
        × IsCellReady task.now.i.now task.now.limit counts.now gone rows.old ends.old }
    requires empty { IsEmpty reached.old }
    ensures filled { (gone : List Row) → HasEntries past.old gone
        → IsCellReady task.now.i.now task.now.limit counts.now gone rows.old ends.old
        → OnOk result (IsCellMade (HasEntries past.new) task.now.i.now task.now.limit counts.now rows.new ends.new) }
    ensures keeps_entries { past.new.keeps_entries ≡ past.old.keeps_entries }
    ensures empty { OnOk result (IsEmpty reached.new) }
    ensures steps { OnOk result (steps.new + sum ends.old ≤ steps.old + sum ends.new) }
    ensures most { (keys : List Key) → HasKeysWithin task.now.i.now task.now.limit keys
        → steps.new + sum ends.old ≤ steps.old + length task.now.i.now.plan * length keys }
{
    for phase in 0..task.i.plan().count() {
        if counts[phase as usize] > 0 {
            let group = Group {
                counts: *counts,
                phase,
                from: ends[phase as usize],
            };
            ends[phase as usize] = fill_group(task, &group, reached, rows, past, steps)?;
        }
    }
    Ok(())
}

/// Appends the rows of a group to the others. The result is where the rows end from which they are reached.
fn fill_group<L: Ledger>(
    task: &Task<'_>,
    group: &Group,
    reached: &mut Reached,
    rows: &mut Rows,
    past: &mut DroppedRows,
    steps: &mut Steps<L>,
) -> Result<usize, AllocError>
    requires group { (gone : List Row)
        × IsGroupReady task.now.i.now task.now.limit group.now.counts group.now.phase group.now.from gone rows.old }
    requires empty { IsEmpty reached.old }
    ensures filled { (gone : List Row) → HasEntries past.old gone
        → IsGroupReady task.now.i.now task.now.limit group.now.counts group.now.phase group.now.from gone rows.old
        → IfOk result (IsGroupFilled (HasEntries past.new) task.now.i.now task.now.limit group.now.counts group.now.phase gone rows.old rows.new) }
    ensures keeps_entries { past.new.keeps_entries ≡ past.old.keeps_entries }
    ensures empty { OnOk result (IsEmpty reached.new) }
    ensures steps { IfOk result (λ end. steps.new + group.now.from ≤ steps.old + end) }
    ensures most { (gone : List Row)
        → IsGroupReady task.now.i.now task.now.limit group.now.counts group.now.phase group.now.from gone rows.old
        → steps.new + group.now.from ≤ steps.old + length (all_rows gone rows.old) }
{
    let phase = group.phase;
    let mut before = group.counts;
    before[phase as usize] -= 1;
    let cluster = &task.i.list(phase)[before[phase as usize] as usize];
    let base = rows.base(phase);
    let source = rows.source(phase);
    let guess = task.cells.before_next(phase, base);
    let (start, end) = cell(source, group.from.saturating_sub(base), &before, guess);
    reached.reach(
        task.i,
        &source[start..end],
        phase,
        cluster,
        task.limit,
        steps,
    )?;
    rows.leave(is_last(task.i, &group.counts, phase), past)?;
    reached.append_to(&mut rows.latest)?;
    Ok(base + end)
}

/// Whether these counts are the last, and the phase is the first, which alone is served from rows with fewer clusters
/// of it.
fn is_last(i: &Instance, counts: &[u8; 4], phase: u8) -> bool
    ensures { IsTrue result ↔ (phase ≡ 0) × IsLastCounts i.now counts.now }
{
    if phase > 0 {
        return false;
    }
    number(counts) >= number(&list_lengths(i))
}

/// Where the rows with these counts begin and end; they stand from a place on, and are guessed to begin and end here.
pub(crate) fn cell(
    rows: &[Row],
    from: usize,
    counts: &[u8; 4],
    guess: (usize, usize),
) -> (usize, usize)
    requires from { from ≤ length rows.now }
    ensures start { IsFrom rows.now from (counts_number counts.now) result.0 }
    ensures end { IsFrom rows.now result.0 (counts_number counts.now + 1) result.1 }
{
    let number = number(counts);
    let start = first_from(rows, from, number, guess.0);
    (start, first_from(rows, start, number + 1, guess.1))
}

/// The first place, from one on, of a row whose counts have at least this number: the one that is guessed, if it is that
/// place.
#[inline]
fn first_from(rows: &[Row], from: usize, least: u32, guess: usize) -> usize
    requires { from ≤ length rows.now }
    ensures { IsFrom rows.now from least result }
{
    if is_first_from(rows, from, least, guess) {
        guess
    } else {
        search_from(rows, from, least)
    }
}

/// Whether a place is the first, from one on, of a row whose counts have at least this number.
#[inline]
fn is_first_from(rows: &[Row], from: usize, least: u32, place: usize) -> bool
    ensures { result ≡ true → IsFrom rows.now from least place }
{
    from <= place
        && place <= rows.len()
        && (place == from || number(&rows[place - 1].entry.counts) < least)
        && (place == rows.len() || least <= number(&rows[place].entry.counts))
}

/// The first place, from one on, of a row whose counts have at least this number. It is looked for in steps that double, and
/// then by halves.
fn search_from(rows: &[Row], from: usize, least: u32) -> usize
    requires { from ≤ length rows.now }
    ensures { IsFrom rows.now from least result }
{
    let mut low = from;
    let mut high = rows.len();
    let mut step = 0;
    while low < high {
        let middle = low + ((high - low) / 2).min(step);
        if number(&rows[middle].entry.counts) < least {
            low = middle + 1;
            step = (step * 2 + 1).min(MOST_STEP);
        } else {
            high = middle;
        }
    }
    low
}

/// The counts as one number, which rises as they do.
fn number(counts: &[u8; 4]) -> u32
    ensures value { result ≡ counts_number counts.now }
    ensures bounds { result < 100000000 }
{
    let [first, second, third, fourth] = *counts;
    ((u32::from(first) * 64 + u32::from(second)) * 64 + u32::from(third)) * 64 + u32::from(fourth)
}
