//! What enters the links of a network, by second and link.
ghost use Rattle.std.specs.Prelude.{◌≡◌, ◌+◌, ◌<◌, ◌≤◌, ℕ, drop, length};
ghost use Rattle.std.specs.List.Sorted.{IsNonDecreasingBy, IsPartitionPoint};
ghost use Rattle.arrivals.specs.{Amounts.AreRising, Amounts.amount_to, declared.rows.ArrivalRow.ArrivalRow};

use crate::checks::check_all;
use crate::joining::{join, order_of};
use crate::rows::{ArrivalRow, RowFault};
use foundation::threads::CrossesThreads;
use road_net::Network;
use std::alloc::{AllocError, Global};
use std::marker::Model;

/// What enters the links of a network from outside: the sums of its rows by second and link, all together at most
/// 2,000,000,000 thousandths of a vehicle. It keeps one row for each second and link of its rows, in the order of seconds and,
/// within a second, of links.
///
/// docs/RULES.md, "Arrivals".
#[derive(Drop)]
pub struct Arrivals {
    rows: Vec<ArrivalRow>,
}

impl Model for Arrivals {
    ghost use Rattle.arrivals.specs.Amounts.{Amounts};

    ghost Value = { Amounts };

    ghost use Rattle.arrivals.specs.Amounts.{AreKept};

    ghost view = { λ arrivals. record { rows = arrivals.rows.items } };

    ghost invariant = { λ arrivals. AreKept arrivals.rows.items };
}

impl CrossesThreads for Arrivals {}

impl Arrivals {
    ghost use Rattle.std.specs.Prelude.{◌≡◌, ◌≢◌, ◌<◌, ◌≤◌, ◌==◌, ℕ, All, IfOk, IfErr, filter, sum_by};
    ghost use Rattle.net_parts.specs.Limits.{most_of_all};
    ghost use Rattle.road_net.specs.Totals.{total};
    ghost use Rattle.arrivals.specs.{Amounts.Amounts, Amounts.AreArrivals, Amounts.AreArrivalsOf, Amounts.AreKept, Amounts.AreRising, Amounts.amount_to, Amounts.arriving_of, Faults.IsRowFault, Rows.amount_of, Rows.arriving_by};
    ghost use Rattle.arrivals.specs.declared.rows.ArrivalRow.{ArrivalRow};

    /// The arrivals of these rows, which may be in any order; rows of one link and second are added.
    ///
    /// The fault is out of memory, or `Link`, `Bound` or `Sum` of the first row at fault, in this order within a row.
    ///
    /// docs/RULES.md, "Arrivals".
    pub fn new(alloc: Global, net: &Network, rows: Vec<ArrivalRow>) -> Result<Arrivals, RowFault>
        ensures ok { IfOk result (AreArrivalsOf net.now rows.items) }
        ensures arrivals { IfOk result (AreArrivals net.now) }
        ensures refused { IfErr result (λ fault. fault ≢ RowFault.NoMemory
            → (a : Amounts) → ¬ AreArrivalsOf net.now rows.items a) }
        ensures first { IfErr result (IsRowFault net.now rows.items) }
    {
        check_all(net, rows.as_slice())?;
        Ok(Arrivals::of_rows(alloc, rows)?)
    }

    /// The arrivals of rows that may be in any order. `Err`: out of memory.
    pub(crate) fn of_rows(alloc: Global, mut rows: Vec<ArrivalRow>) -> Result<Arrivals, AllocError>
        requires least { All (λ (row : ArrivalRow). 1 ≤ row.amount) rows.items }
        requires few { sum_by amount_of rows.items ≤ most_of_all }
        ensures kept { IfOk result (λ a. AreKept a.rows) }
        ensures sums { IfOk result (λ a. (link second : ℕ)
            → arriving_of a second link ≡ arriving_by rows.items second link) }
    {
        rows.sort_unstable_by_key(|row| order_of(row));
        let rows = join(alloc, rows.as_slice())?;
        Ok(Arrivals { rows })
    }

    /// The rows, one for each second and link in which something enters, in the order of seconds and, within a second, of links.
    ///
    /// docs/RULES.md, "Arrivals".
    pub fn rows(&self) -> &[ArrivalRow]
        ensures value { result.now ≡ self.now.rows }
        ensures kept { AreKept self.now.rows }
    {
        self.rows.as_slice()
    }

    /// What enters a link in a second, in thousandths of a vehicle: the sum of the rows with both.
    ///
    /// docs/RULES.md, "Arrivals".
    pub fn entering(&self, link: u32, second: u32) -> u32
        ensures value { result ≡ arriving_of self.now second link }
        ensures few { (n m : ℕ) → total (λ x. total (arriving_of self.now x) m) n ≤ most_of_all }
    {
        let rows = self.in_second(second);
        let place = first_of_link(rows, link);
        let (amount, _) = next_amount(&rows[place..], link);
        amount
    }

    /// The rows of a second, in the order of links: `next_amount` tells what they bring to each.
    ///
    /// docs/RULES.md, "Arrivals".
    pub fn in_second(&self, second: u32) -> &[ArrivalRow]
        ensures value { result.now ≡ filter (λ row. row.second == second) self.now.rows }
        ensures rising { AreRising 0 result.now }
        ensures amounts { (link : ℕ) → amount_to result.now link ≡ arriving_of self.now second link }
        ensures kept { AreKept self.now.rows }
    {
        let rows = self.rows.as_slice();
        let rest = &rows[first_from(rows, second)..];
        &rest[..first_after(rest, second)]
    }
}

/// What the rows of a second from a link on bring to that link, in thousandths of a vehicle, and the rows of later links.
///
/// docs/RULES.md, "Arrivals".
#[inline]
pub fn next_amount(rows: &[ArrivalRow], link: u32) -> (u32, &[ArrivalRow])
    requires { AreRising link rows.now }
    ensures amount { result.0 ≡ amount_to rows.now link }
    ensures rising { AreRising (link + 1) result.1.now }
    ensures later { (l : ℕ) → link < l → amount_to result.1.now l ≡ amount_to rows.now l }
{
    let Some((row, rest)) = rows.split_first() else {
        return (0, rows);
    };
    if row.link != link {
        return (0, rows);
    }
    (row.amount, rest)
}

/// The place of the first row that is not before the second, found by halves.
fn first_from(rows: &[ArrivalRow], second: u32) -> usize
    requires { IsNonDecreasingBy (λ (row : ArrivalRow). row.second) rows.now }
    ensures bound { result ≤ length rows.now }
    ensures split { IsPartitionPoint (λ (row : ArrivalRow). row.second < second)
        (λ (row : ArrivalRow). second ≤ row.second) rows.now result }
{
    rows.partition_point(|row| row.second < second)
}

/// The place of the first row after the second, found by halves.
fn first_after(rows: &[ArrivalRow], second: u32) -> usize
    requires { IsNonDecreasingBy (λ (row : ArrivalRow). row.second) rows.now }
    ensures bound { result ≤ length rows.now }
    ensures split { IsPartitionPoint (λ (row : ArrivalRow). row.second ≤ second)
        (λ (row : ArrivalRow). second < row.second) rows.now result }
{
    rows.partition_point(|row| row.second <= second)
}

/// The place of the first row whose link is not below this one, found by halves.
fn first_of_link(rows: &[ArrivalRow], link: u32) -> usize
    requires { AreRising 0 rows.now }
    ensures bound { result ≤ length rows.now }
    ensures rising { AreRising link (drop result rows.now) }
    ensures amount { amount_to (drop result rows.now) link ≡ amount_to rows.now link }
{
    rows.partition_point(|row| row.link < link)
}
