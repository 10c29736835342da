//! What a timeline shows at a second.

ghost use Rattle.std.specs.Prelude.{◌≡◌, ℕ, ◌<◌, ◌≤◌, List, length, slice_get, Some, IfSome};
ghost use Rattle.switch_rules.specs.Serving.{IsHead};
ghost use Rattle.control_flow.specs.declared.greens.Green.{Green};
ghost use Rattle.control_flow.specs.Greens as spec;
ghost use Rattle.control_flow.specs.declared.greens.Sign.TheVariants as signs;
ghost use Rattle.control_flow.specs.Signs as sign;
ghost use Rattle.control_flow.specs.Greens.{AreApart, BeginBy, GoesOn, IsGreen, IsInOrder, IsLawful, Joins, covers, covers_yellow, end_of, head_in, is_green, is_yellow, colour_at, row_after, row_at};

use super::greens::{Colour, Green, Sign, Timeline};
use phase_plan::PhasePlan;
use switch_rules::Head;

/// The state of the signal at a second: by the first row that ends after it, whose green stands then or is the next
/// to come.
///
/// Where the row covers the second, its time is spent up to that second, and it is fresh within the start-up loss of
/// its phase. Else the head stands at the begin of the row, fresh. The timeline is lawful for the plan and ends after
/// the second.
///
/// docs/RULES.md, "Head at a second".
pub fn head_at(plan: &PhasePlan, line: &Timeline, now: u32) -> Head
    requires lawful { IsLawful plan.now line.now }
    requires end { now < end_of line.now }
    ensures value { spec.head_at plan.now line.now now ≡ Some result }
    ensures head { IsHead plan.now result }
    ensures begins_by { (n : ℕ) → now ≤ n → BeginBy n line.now → result.at ≤ n }
    // So a timeline that goes on in this head can be spliced in.
    ensures joins { (next : List Green) → GoesOn result next → Joins line.now next }
    ensures apart { AreApart plan.now line.now }
{
    // Called for its clause `ring`.
    let _ = plan.count();
    let Some(row) = row_after(line, now) else {
        unreachable!()
    };
    head_in(plan, now, &row)
}

/// The first row that ends after a second. Where it is not the timeline's guess, it searches by halves.
fn row_after(line: &Timeline, now: u32) -> Option<Green>
    ensures value { result ≡ row_after line.now now }
    ensures order { IsInOrder line.now }
{
    let rows = line.rows();
    match covering_at(rows, line.guess(), now) {
        Some(row) => Some(row),
        None => rows.get(rows_by(rows, now)).copied(),
    }
}

/// The row at a place, if it covers a second: it is then the first that ends after it.
fn covering_at(rows: &[Green], place: usize, second: u32) -> Option<Green>
    requires { IsInOrder rows.now }
    ensures after { IfSome result (λ row. row_after rows.now second ≡ Some row) }
    ensures begun { IfSome result (λ row. row.from ≤ second) }
{
    if place >= rows.len() {
        return None;
    }
    let row = rows[place];
    if row.from <= second && second < row.to {
        Some(row)
    } else {
        None
    }
}

/// How many rows end by a second.
fn rows_by(rows: &[Green], second: u32) -> usize
    requires { IsInOrder rows.now }
    ensures after { row_after rows.now second ≡ slice_get rows.now result }
    ensures ended { (k : ℕ) → k < result → (row_at rows.now k).to ≤ second }
    ensures next { result < length rows.now → second < (row_at rows.now result).to }
{
    rows.partition_point(|row| row.to <= second)
}

/// The state of the signal at a second, by a row that ends after it.
fn head_in(plan: &PhasePlan, now: u32, row: &Green) -> Head
    requires green { IsGreen plan.now row.now }
    requires behind { now < row.now.to }
    ensures value { result ≡ head_in plan.now now row.now }
    ensures head { IsHead plan.now result }
{
    if row.from <= now {
        Head {
            phase: row.phase,
            since: row.from,
            at: now,
            fresh: now - row.from < plan.phase(row.phase).loss,
        }
    } else {
        Head {
            phase: row.phase,
            since: row.from,
            at: row.from,
            fresh: true,
        }
    }
}

/// The row that covers a second, if any does; no two do. The time does not grow with what is past: it searches by halves.
///
/// docs/RULES.md, "Timeline".
pub fn green_at(line: &Timeline, second: u32) -> Option<Green>
    ensures value { result ≡ spec.green_at line.now second }
    ensures order { IsInOrder line.now }
{
    let Some(row) = row_after(line, second) else {
        return None;
    };
    if row.from <= second { Some(row) } else { None }
}

/// The sign of the signal at a second: a phase that is on, a change from one row to the next, or that it is dark. The time
/// does not grow with what is past: it searches by halves.
///
/// docs/RULES.md, "Signs".
pub fn sign_at(line: &Timeline, second: u32) -> Sign
    ensures exact { result ≡ sign.sign_at line.now second }
    ensures order { IsInOrder line.now }
{
    let rows = line.rows();
    match covering_at(rows, line.guess(), second) {
        Some(row) => on(&row),
        None => sign_by(rows, rows_by(rows, second), second),
    }
}

/// The sign of a second by which this many rows have ended.
fn sign_by(rows: &[Green], ended: usize, second: u32) -> Sign
    requires order { IsInOrder rows.now }
    requires ended { (k : ℕ) → k < ended → (row_at rows.now k).to ≤ second }
    requires next { ended < length rows.now → second < (row_at rows.now ended).to }
    ensures { result ≡ sign.sign_at rows.now second }
{
    if ended >= rows.len() {
        return Sign::Dark;
    }
    let row = rows[ended];
    if row.from <= second {
        return on(&row);
    }
    if ended == 0 {
        return Sign::Dark;
    }
    Sign::Change {
        from: rows[ended - 1].phase,
        to: row.phase,
    }
}

/// The sign of a row that covers a second.
fn on(row: &Green) -> Sign
    ensures { result ≡ signs.On row.now.phase row.now.from }
{
    Sign::On {
        phase: row.phase,
        since: row.from,
    }
}

/// Whether a row covers a second.
fn covers(row: &Green, second: u32) -> bool
    ensures { result ≡ covers row.now second }
{
    row.from <= second && second < row.to
}

/// What a phase of the plan shows at a second: green where a row of it covers the second, else yellow where the yellow
/// after such a row does, else red.
///
/// docs/RULES.md, "Colours".
pub fn colour(plan: &PhasePlan, line: &Timeline, phase: u8, second: u32) -> Colour
    requires { phase < length plan.now }
    ensures { result ≡ colour_at plan.now line.now phase second }
{
    if is_green(line, phase, second) {
        Colour::Green
    } else if is_yellow(plan, line, phase, second) {
        Colour::Yellow
    } else {
        Colour::Red
    }
}

/// Whether a row of the phase covers a second.
fn is_green(line: &Timeline, phase: u8, second: u32) -> bool
    ensures { result ≡ is_green line.now phase second }
{
    line.rows()
        .iter()
        .any(|row| row.phase == phase && covers(row, second))
}

/// Whether the yellow after a row of the phase covers a second.
fn is_yellow(plan: &PhasePlan, line: &Timeline, phase: u8, second: u32) -> bool
    requires { phase < length plan.now }
    ensures { result ≡ is_yellow plan.now line.now phase second }
{
    let yellow = plan.phase(phase).yellow;
    line.rows().iter().any(|row| row.phase == phase && is_in_yellow(row, yellow, second))
}

/// Whether the yellow of this many seconds after a row covers a second.
fn is_in_yellow(row: &Green, yellow: u32, second: u32) -> bool
    ensures { result ≡ covers_yellow row.now yellow second }
{
    row.to <= second && second - row.to < yellow
}
