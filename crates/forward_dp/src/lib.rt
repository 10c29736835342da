//! The best answer of an instance by a table that grows forward: one row is kept for each key that fit prefixes reach. The
//! whole table can be had as a certificate of that answer.
//!
//! The rows of one group, with the same counts and the same green phase, follow from the rows before them (`groups`, `rows`, `greens`).
#![tactic(auto)]

ghost use Rattle.std.specs.Prelude.{◌≡◌, ◌⊎◌, ◌+◌, ◌*◌, ◌≤◌, ◌<◌, [], All, Contains, List, length, sum, slice_index, IfNone, IfOk, IfSome};
ghost use Rattle.schedule_meaning.specs.{Best.IsBest, Best.IsLeast, Instances.IsInstance, Instances.counts_of};
ghost use Rattle.dp_certificate.specs.{Limits.HasKeysWithin, Limits.IsSomeDelay, Numbers.AreLengths, Prefixes.HasAllKeys, Prefixes.Key};
ghost use Rattle.forward_dp.specs.{Rows.IsNoWorse, Tables.HasAnswers};

mod answers;
mod cell_ends;
mod certifying;
mod completions;
mod greens;
mod groups;
mod lists;
mod live_rows;
mod orders;
mod rows;
mod table;

use answers::sequence_of;
pub use certifying::{certify, certify_within};
pub use completions::answer_of;
use dp_certificate::list_lengths;
use foundation::items::Items;
use foundation::steps::Steps;
use foundation::threads::CrossesThreads;
pub use groups::Reached;
pub use lists::Lists;
use live_rows::{DroppedRows, Rows};
pub use orders::Order;
pub use rows::{Row, better_of};
use schedule_meaning::{Answer, Instance, Planner};
use std::alloc::{AllocError, Global};
use std::mem::replace;
use std::sync::ledger::Ledger;
use table::{cell, table};

/// The best answer of an instance by a table with a row for each key that fit prefixes reach. A key is how many
/// clusters of each phase are served, the green phase, since when, and up to which second its time is spent.
///
/// It takes at most as many steps, for each key that fit prefixes reach at all, as the instance has phases; also where
/// it fails. `Err`: out of memory.
///
/// docs/RULES.md, "Best answer".
pub fn layered<L: Ledger>(
    alloc: Global,
    i: &Instance,
    steps: &mut Steps<L>,
) -> Result<Answer, AllocError>
    ensures best { IfOk result (IsBest i.now) }
    ensures least { IfOk result (IsLeast i.now) }
    ensures servings { (keys : List Key) → HasAllKeys i.now keys
        → steps.new ≤ steps.old + length i.now.plan * length keys }
{
    layered_within(alloc, i, None, steps)
}

/// The best answer of an instance, as `layered` gives it, by a table with a limit: no row is kept whose delay, with
/// what the clusters that are left cost at the least, is above it. The limit is the delay of a feasible sequence, in
/// thousandths of a vehicle times weight times seconds; with none the table is the whole one.
///
/// It takes at most as many steps, for each key that fit prefixes within the limit reach, as the instance has phases;
/// also where it fails. `Err`: out of memory.
///
/// docs/RULES.md, "Bounded table".
pub fn layered_within<L: Ledger>(
    alloc: Global,
    i: &Instance,
    limit: Option<u64>,
    steps: &mut Steps<L>,
) -> Result<Answer, AllocError>
    requires { IsSomeDelay i.now limit }
    ensures best { IfOk result (IsBest i.now) }
    ensures least { IfOk result (IsLeast i.now) }
    ensures servings { (keys : List Key) → HasKeysWithin i.now limit keys
        → steps.new ≤ steps.old + length i.now.plan * length keys }
{
    layered_in(alloc, &mut Lists::new(alloc), i, limit, steps)
}

/// The best answer of an instance by a table with a limit, as `layered_within` gives it, in these lists, in as few
/// steps. After an `Err`, which comes where memory runs out, the lists have given their memory back.
///
/// docs/RULES.md, "Bounded table".
pub fn layered_in<L: Ledger>(
    alloc: Global,
    lists: &mut Lists,
    i: &Instance,
    limit: Option<u64>,
    steps: &mut Steps<L>,
) -> Result<Answer, AllocError>
    requires { IsSomeDelay i.now limit }
    ensures best { IfOk result (IsBest i.now) }
    ensures least { IfOk result (IsLeast i.now) }
    ensures servings { (keys : List Key) → HasKeysWithin i.now limit keys
        → steps.new ≤ steps.old + length i.now.plan * length keys }
{
    let mut past = DroppedRows {
        keeps_entries: false,
        entries: Vec::new(alloc),
    };
    let Lists {
        mut reached,
        mut rows,
        mut cells,
    } = replace(lists, Lists::new(alloc)).for_table(i)?;
    table(
        i,
        limit,
        &mut past,
        &mut reached,
        &mut rows,
        &mut cells,
        steps,
    )?;
    let answer = best_answer(alloc, i, &rows)?;
    *lists = Lists {
        reached,
        rows,
        cells,
    };
    Ok(answer)
}

/// The answer of the best of the rows of whole sequences.
fn best_answer(alloc: Global, i: &Instance, rows: &Rows) -> Result<Answer, AllocError>
    requires { HasAnswers i.now rows.now }
    ensures best { IfOk result (IsBest i.now) }
    ensures instance { IsInstance i.now }
{
    let last = list_lengths(i);
    let places = places(i);
    let latest = rows.latest.as_slice();
    let (start, end) = cell(latest, 0, &last, (0, latest.len()));
    let Some(best) = best_of(&latest[start..end]) else {
        return Ok(Answer::NoPlan);
    };
    let sequence = sequence_of(alloc, best.order.value(), places)?;
    Ok(Answer::Plan {
        sequence: Items::from_vec(sequence),
        delay: best.entry.delay,
    })
}

/// The row with the least delay, and of several with that delay the one with the first order.
fn best_of(rows: &[Row]) -> Option<Row>
    ensures none { IfNone result (rows.now ≡ []) }
    ensures among { IfSome result (Contains rows.now) }
    ensures best { IfSome result (λ best. All (λ r. IsNoWorse best r.entry.delay r.order) rows.now) }
{
    let mut best = *rows.first()?;
    for row in rows {
        best = better_of(&best, row);
    }
    Some(best)
}

/// How many clusters there are in all.
///
/// docs/RULES.md, "Table".
pub fn places(i: &Instance) -> u32
    ensures value { result ≡ sum (counts_of i.now.lists) }
    ensures instance { IsInstance i.now }
{
    let mut counts = [0; 4];
    let counts = &mut counts[..i.plan().count() as usize];
    i.count(counts);
    counts.iter().sum()
}

/// The planner that answers by `layered`, in as few steps.
///
/// docs/RULES.md, "Best answer".
#[derive(Clone, Copy)]
pub struct LayerPlanner;

impl CrossesThreads for LayerPlanner {}

impl Planner for LayerPlanner {
    fn best<L: Ledger>(
        &mut self,
        alloc: Global,
        i: &Instance,
        steps: &mut Steps<L>,
    ) -> Result<Answer, AllocError>
        ensures best { IfOk result (IsBest i.now) }
        ensures least { IfOk result (IsLeast i.now) }
        ensures only { IfOk result (λ answer. (other : Answer) → IsBest i.now other → other ≡ answer) }
        ensures servings { (keys : List Key) → HasAllKeys i.now keys
            → steps.new ≤ steps.old + length i.now.plan * length keys }
    {
        layered(alloc, i, steps)
    }
}
