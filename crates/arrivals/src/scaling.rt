//! Arrivals scaled by a factor, exactly, by cumulative rounding.
ghost use Rattle.std.specs.Prelude.{◌≡◌, ◌+◌, ◌<◌, ◌≤◌, IfOk, OnOk, length, slice_index, slice_set};
ghost use Rattle.std.specs.Result.{IsErrOf};
ghost use Rattle.net_parts.specs.{Limits.most_of_all, Outline.known_seconds};
ghost use Rattle.arrivals.specs.{Amounts.AreArrivals, Amounts.IsEntry, Amounts.arriving_of, Rows.IsSource, ScaledRows.Brings, ScaledRows.HaveCome, ScaledRows.next_share, Scaling.IsScaled, Scaling.greatest_factor, Scaling.scaled_whole};
ghost use Rattle.arrivals.specs.Scaling as spec;

use crate::checks::MOST_OF_ROW;
use crate::{ArrivalRow, Arrivals, RowFault};
use foundation::threads::CrossesThreads;
use road_net::{Network, law_of_network};
use std::alloc::{AllocError, Global};

/// Why arrivals are not scaled.
///
/// docs/RULES.md, "Scaled arrivals".
#[derive(Debug, Clone, Copy, PartialEq, Eq)]
pub enum ScaleFault {
    /// Out of memory.
    NoMemory,
    /// All together would bring more than 2,000,000,000 thousandths of a vehicle.
    Sum,
}

impl CrossesThreads for ScaleFault {}

/// The arrivals of a network scaled by a factor of at most 10,000 thousandths: of all that enters a link up to a second
/// the scaled arrivals have this share, rounded down.
///
/// The fault is out of memory, or `Sum`.
///
/// docs/RULES.md, "Scaled arrivals".
pub fn scale(
    alloc: Global,
    net: &Network,
    arrivals: &Arrivals,
    factor: u32,
) -> Result<Arrivals, ScaleFault>
    requires arrivals { AreArrivals net.now arrivals.now }
    requires factor { factor ≤ greatest_factor }
    ensures ok { IfOk result (λ scaled. IsScaled factor (arriving_of arrivals.now) (arriving_of scaled)) }
    ensures arrivals { IfOk result (AreArrivals net.now) }
    ensures few { OnOk result (scaled_whole net.now factor (arriving_of arrivals.now) ≤ most_of_all) }
    ensures sum { IsErrOf result ScaleFault.Sum → most_of_all < scaled_whole net.now factor (arriving_of arrivals.now) }
{
    law_of_network(net);
    let Ok(rows) = scaled_rows(alloc, net, arrivals, factor) else {
        return Err(ScaleFault::NoMemory);
    };
    match Arrivals::new(alloc, net, rows) {
        Ok(scaled) => Ok(scaled),
        Err(RowFault::NoMemory) => Err(ScaleFault::NoMemory),
        Err(RowFault::Sum(_)) => Err(ScaleFault::Sum),
        // Each row is lawful.
        Err(RowFault::Header) => unreachable!(),
        Err(RowFault::Row(_)) => unreachable!(),
        Err(RowFault::Link(_)) => unreachable!(),
        Err(RowFault::Bound(_)) => unreachable!(),
    }
}

/// Rows that bring the scaled arrivals.
fn scaled_rows(
    alloc: Global,
    net: &Network,
    arrivals: &Arrivals,
    factor: u32,
) -> Result<Vec<ArrivalRow>, AllocError>
    requires arrivals { AreArrivals net.now arrivals.now }
    requires factor { factor ≤ greatest_factor }
    ensures { IfOk result (λ rows. HaveCome net.now factor arrivals.now.rows rows.items) }
{
    let mut entered = vec![in alloc; 0; net.links() as usize]?;
    let mut rows = Vec::new(alloc);
    let coming = arrivals.rows();
    for row in coming {
        push_row(net, row, factor, &mut entered, &mut rows)?;
    }
    Ok(rows)
}

/// Adds rows that bring what the scaled arrivals have of a row, where `entered` has what entered each link before it; it then has the
/// row too.
fn push_row(
    net: &Network,
    row: &ArrivalRow,
    factor: u32,
    entered: &mut Vec<u32>,
    rows: &mut Vec<ArrivalRow>,
) -> Result<(), AllocError>
    requires entry { IsEntry net.now row.now }
    requires factor { factor ≤ greatest_factor }
    requires count { length entered.old.items ≡ length net.now.link_names }
    requires few { slice_index entered.old.items row.now.link + row.now.amount ≤ most_of_all }
    ensures entered { OnOk result (entered.new.items ≡ slice_set entered.old.items row.now.link
        (slice_index entered.old.items row.now.link + row.now.amount)) }
    ensures brings { OnOk result (Brings net.now row.now.link row.now.second
        (next_share factor (slice_index entered.old.items row.now.link) row.now.amount) rows.old.items rows.new.items) }
{
    let link = row.link as usize;
    let before = entered[link];
    let after = before + row.amount;
    let amount = share_of(u64::from(after), factor) - share_of(u64::from(before), factor);
    push_amount(net, row.link, row.second, amount, rows)?;
    entered[link] = after;
    Ok(())
}

/// This many thousandths of an amount, rounded down.
fn share_of(amount: u64, factor: u32) -> u64
    requires amount { amount ≤ most_of_all }
    requires factor { factor ≤ greatest_factor }
    ensures { result ≡ spec.share_of factor amount }
{
    amount * u64::from(factor) / 1000
}

/// Adds rows that bring an amount to a link in a second, each at most as much as a row may bring.
fn push_amount(
    net: &Network,
    link: u32,
    second: u32,
    amount: u64,
    rows: &mut Vec<ArrivalRow>,
) -> Result<(), AllocError>
    requires source { 0 < amount → IsSource net.now link }
    requires second { second < known_seconds net.now }
    ensures { OnOk result (Brings net.now link second amount rows.old.items rows.new.items) }
{
    let mut left = amount;
    while left > 0 {
        let amount = left.min(u64::from(MOST_OF_ROW)) as u32;
        rows.push(ArrivalRow {
            second,
            link,
            amount,
        })?;
        left -= u64::from(amount);
    }
    Ok(())
}
