//! Which rows are lawful, one after another.
ghost use Rattle.std.specs.Prelude.{◌≡◌, ◌↔◌, ◌+◌, ◌≤◌, IfErr, IfOk, IsTrue, OnOk, sum_by};
ghost use Rattle.net_parts.specs.Limits.{most_of_all};
ghost use Rattle.road_net.specs.Network.{IsNetwork};
ghost use Rattle.arrivals.specs.{Faults.IsRowFault, Rows.IsSource, Rows.HasBounds, Rows.AreRows, Stored.IsRefused, Stored.IsTaken};

use crate::rows::{ArrivalRow, RowFault};
use net_parts::MOST_OF_ALL;
use road_net::Network;

/// The most that one row may bring, in thousandths of a vehicle.
pub(crate) const MOST_OF_ROW: u32 = 1_000_000;

/// What rows bring with this one, which has this number, where those before it bring `whole`.
pub(crate) fn check(
    net: &Network,
    row: &ArrivalRow,
    whole: u32,
    number: u32,
) -> Result<u32, RowFault>
    requires { whole ≤ most_of_all }
    ensures taken { OnOk result (IsTaken net.now row.now whole) }
    ensures sum { IfOk result (λ sum. sum ≡ whole + row.now.amount) }
    ensures first { IfErr result (IsRefused net.now row.now number whole) }
{
    if !is_source(net, row.link) {
        return Err(RowFault::Link(number));
    }
    if !has_bounds(net, row) {
        return Err(RowFault::Bound(number));
    }
    if row.amount > MOST_OF_ALL - whole {
        return Err(RowFault::Sum(number));
    }
    Ok(whole + row.amount)
}

/// Whether the rows are lawful; else the first fault.
pub(crate) fn check_all(net: &Network, rows: &[ArrivalRow]) -> Result<(), RowFault>
    ensures lawful { OnOk result (AreRows net.now rows.now) }
    ensures first { IfErr result (IsRowFault net.now rows.now) }
{
    let mut whole = 0;
    for (index, row) in rows.iter().enumerate() {
        whole = check(net, row, whole, index as u32 + 1)?;
    }
    Ok(())
}

/// Whether the link is one of the network that comes from no node.
fn is_source(net: &Network, link: u32) -> bool
    ensures { IsTrue result ↔ IsSource net.now link }
{
    link < net.links() && net.link(link).from.is_none()
}

/// Whether the second and the amount are within their bounds.
fn has_bounds(net: &Network, row: &ArrivalRow) -> bool
    ensures { IsTrue result ↔ HasBounds net.now row.now }
{
    row.second < net.known_seconds() && (1..=MOST_OF_ROW).contains(&row.amount)
}
