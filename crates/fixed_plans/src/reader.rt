//! A fixed plan that is being read.
ghost use Rattle.std.specs.Prelude.{◌≡◌, ◌<◌, IfSome, None, [], length};
ghost use Rattle.fixed_plans.specs.Readers.{Adds, IsPlaced};

use crate::faults::FixedFault;
use crate::order::{as_before, comes_next, has_green, has_offset};
use crate::rows::{Before, FixedRow};
use road_net::Network;
use std::alloc::Global;

/// The rows that were read, and the last of them.
#[derive(Drop)]
pub(crate) struct PlanReader {
    /// The rows, in their order.
    pub rows: Vec<FixedRow>,
    /// The last of them, as the one before the next.
    pub last: Option<Before>,
}

impl PlanReader {
    /// No rows.
    pub(crate) fn none(alloc: Global) -> Self
        ensures rows { result.rows.items ≡ [] }
        ensures last { result.last ≡ None }
    {
        PlanReader {
            rows: Vec::new(alloc),
            last: None,
        }
    }
}

/// Adds the row with this number.
pub(crate) fn add_row(
    net: &Network,
    row: FixedRow,
    number: u32,
    reader: &mut PlanReader,
) -> Result<(), FixedFault>
    requires node { row.node < length net.now.node_names }
    requires before { IfSome reader.old.last (IsPlaced net.now) }
    ensures { Adds net.now row number reader.old reader.new result }
{
    if !comes_next(net, reader.last, &row) {
        return Err(FixedFault::Phase(number));
    }
    if !has_green(net.plan(row.node), &row) {
        return Err(FixedFault::Green(number));
    }
    if !has_offset(reader.last, &row) {
        return Err(FixedFault::Offset(number));
    }
    reader.rows.push(row)?;
    reader.last = Some(as_before(reader.last, row));
    Ok(())
}
