//! Where a timeline is cut that another one goes on.

ghost use Rattle.std.specs.Prelude.{◌≡◌, ◌≤◌, length, take};
ghost use Rattle.control_flow.specs.Greens.{IsInOrder, rows_before};

use super::greens::Green;

/// How many rows there are up to the first that does not begin before a second. It searches by halves.
pub(crate) fn count_before(rows: &[Green], second: u32) -> usize
    requires { IsInOrder rows.now }
    ensures value { rows_before rows.now second ≡ take result rows.now }
    ensures bounds { result ≤ length rows.now }
{
    rows.partition_point(|row| row.from < second)
}
