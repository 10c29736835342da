//! Rows: what the table is made of, and which of two is kept.
ghost use Rattle.std.specs.Prelude.{◌≡◌, ◌⊎◌, ◌↔◌, ◌<◌, ◌≤◌, ◌++◌, Contains, IsTrue, List, OnOk};
ghost use Rattle.forward_dp.specs.Rows.{AreBestOf, AreLater, AreUpTo, IsNoWorse, time_of};

use crate::orders::Order;
use dp_certificate::Entry;
use foundation::threads::CrossesThreads;
use std::alloc::AllocError;

/// A key with the least delay so far, and of several sequences with that delay the first.
///
/// docs/RULES.md, "Table".
#[derive(Debug, Clone, Copy, PartialEq, Eq)]
pub struct Row {
    /// The key with its delay.
    pub entry: Entry,
    /// The sequence, as digits to the base 4.
    pub order: Order,
}

impl CrossesThreads for Row {}

/// Whether a row has less delay than another, or the same and no later order.
pub(crate) fn is_no_worse(row: &Row, other: &Row) -> bool
    ensures { IsTrue result ↔ IsNoWorse row.now other.now.entry.delay other.now.order }
{
    row.entry.delay < other.entry.delay
        || row.entry.delay == other.entry.delay && row.order.is_up_to(&other.order)
}

/// The better of two rows: the one with less delay, and of two with one delay the one with the first order.
///
/// docs/RULES.md, "Table".
pub fn better_of(row: &Row, other: &Row) -> Row
    ensures from { (result ≡ row.now) ⊎ (result ≡ other.now) }
    ensures first { IsNoWorse result row.now.entry.delay row.now.order }
    ensures second { IsNoWorse result other.now.entry.delay other.now.order }
{
    if is_no_worse(row, other) {
        *row
    } else {
        *other
    }
}

/// Since when the green of a row lasts, and then up to when its time is spent.
fn time_of(row: &Row) -> u64
    ensures { result ≡ time_of row.now }
{
    let since = row.entry.since;
    let at = row.entry.at;
    u64::from(since) * 4_294_967_296 + u64::from(at)
}

/// Appends a row to rows none of which is later; of two with one time the better stays.
pub fn push_row(rows: &mut Vec<Row>, row: Row) -> Result<(), AllocError>
    requires later { AreLater rows.old.items }
    requires last { AreUpTo (time_of row) rows.old.items }
    ensures later { OnOk result (AreLater rows.new.items) }
    ensures best { OnOk result (AreBestOf (λ c. Contains rows.old.items c ⊎ (c ≡ row)) rows.new.items) }
{
    let end = rows.len();
    if end > 0 {
        let last = rows[end - 1];
        if time_of(&last) == time_of(&row) {
            rows[end - 1] = better_of(&last, &row);
            return Ok(());
        }
    }
    rows.push(row)?;
    Ok(())
}

/// Appends two lists of rows, each in the order of their times, to others as one.
pub fn merge(left: &[Row], right: &[Row], rows: &mut Vec<Row>) -> Result<(), AllocError>
    requires left { AreLater left.now }
    requires right { AreLater right.now }
    ensures { OnOk result ((merged : List Row) × (rows.new.items ≡ rows.old.items ++ merged) × AreLater merged
        × AreBestOf (λ c. Contains left.now c ⊎ Contains right.now c) merged) }
{
    let mut next = 0;
    for row in left {
        let time = time_of(row);
        while next < right.len() && time_of(&right[next]) < time {
            rows.push(right[next])?;
            next += 1;
        }
        if next < right.len() && time_of(&right[next]) == time {
            rows.push(better_of(row, &right[next]))?;
            next += 1;
        } else {
            rows.push(*row)?;
        }
    }
    while next < right.len() {
        rows.push(right[next])?;
        next += 1;
    }
    Ok(())
}
