//! Rows in order, of which those of one second and link are added.
ghost use Rattle.std.specs.Prelude.{◌≡◌, ◌≢◌, ℕ, ◌+◌, ◌-◌, ◌≤◌, ◌<◌, ◌^◌, All, AllPairs, IfOk, IsFalse, IsTrue, OnOk, length, slice_index_or, sum_by};
ghost use Rattle.std.specs.List.Sorted.{IsNonDecreasingBy};
ghost use Rattle.net_parts.specs.Limits.{most_of_all};
ghost use Rattle.arrivals.specs.{Amounts.AreKept, Amounts.IsBefore, Rows.amount_of, Rows.arriving_by, Stored.EndsBy, Stored.EndsWith, Stored.IsJoined, declared.rows.ArrivalRow.ArrivalRow};
ghost use Rattle.arrivals.specs.Stored as stored;

use crate::rows::ArrivalRow;
use std::alloc::{AllocError, Global};

/// A number by which rows are in order: the second counts more than the link.
pub(crate) fn order_of(row: &ArrivalRow) -> u64
    ensures value { result ≡ stored.order_of row.now }
    ensures small { row.now.link < 2 ^ 32 }
{
    u64::from(row.second) * 4_294_967_296 + u64::from(row.link)
}

/// Rows that are in order, one for each second and link. `Err`: out of memory.
pub(crate) fn join(alloc: Global, rows: &[ArrivalRow]) -> Result<Vec<ArrivalRow>, AllocError>
    requires order { IsNonDecreasingBy stored.order_of rows.now }
    requires least { All (λ (row : ArrivalRow). 1 ≤ row.amount) rows.now }
    requires few { sum_by amount_of rows.now ≤ most_of_all }
    ensures kept { IfOk result (λ kept. AreKept kept.items) }
    ensures sums { IfOk result (λ kept. (link second : ℕ)
        → arriving_by kept.items second link ≡ arriving_by rows.now second link) }
{
    let mut kept = Vec::new(alloc);
    for row in rows {
        add_row(&mut kept, *row)?;
    }
    Ok(kept)
}

/// Adds a row at the end: to the last row where that has its second and link, and else after it.
fn add_row(kept: &mut Vec<ArrivalRow>, row: ArrivalRow) -> Result<(), AllocError>
    requires order { AllPairs IsBefore kept.old.items }
    requires ends { EndsBy (stored.order_of row) kept.old.items }
    requires few { sum_by amount_of kept.old.items + row.amount ≤ most_of_all }
    ensures { OnOk result (IsJoined kept.old.items row kept.new.items) }
{
    if ends_with(kept.as_slice(), &row) {
        let last = kept.len() - 1;
        kept[last].amount += row.amount;
        return Ok(());
    }
    kept.push(row)?;
    Ok(())
}

/// Whether the last of the rows has the second and the link of this one.
fn ends_with(rows: &[ArrivalRow], row: &ArrivalRow) -> bool
    ensures same { IsTrue result → EndsWith row.now rows.now }
    ensures other { IsFalse result → (d : ArrivalRow) → 0 < length rows.now
        → stored.order_of (slice_index_or rows.now (length rows.now - 1) d) ≢ stored.order_of row.now }
    ensures small { 0 < length rows.now → row.now.link < 2 ^ 32 }
{
    match rows.last() {
        Some(last) => order_of(last) == order_of(row),
        None => false,
    }
}
