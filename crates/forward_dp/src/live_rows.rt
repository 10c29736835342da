//! The rows of a table that can still be served on.

ghost use Rattle.std.specs.Prelude.{◌≡◌, ◌+◌, ◌^◌, ◌<◌, ◌++◌, List, [], length, map, slice_index, OnOk};
ghost use Rattle.forward_dp.specs.{Tables.HasEntries, Tables.HasNone, Tables.IsEntered, Tables.IsLeft, Tables.base_of, Tables.source_of, declared.rows.Row.Row};

use crate::Row;
use dp_certificate::Entry;
use foundation::threads::CrossesThreads;
use std::alloc::{AllocError, Global};
use std::mem::swap;

/// The last rows of a table: those with as many clusters of the first phase as the cell under way has, and those with
/// fewer from which such cells are reached. Once the first phase is served in the last cell, that cell's rows stand
/// apart from the others with as many, so that they take no memory that was not filled before.
#[derive(Drop)]
pub(crate) struct Rows {
    /// How many rows stood before these, and are dropped.
    pub(crate) gone: usize,
    /// The rows with fewer clusters of the first phase; those of the cells before the last one, where it stands apart.
    pub(crate) earlier: Vec<Row>,
    /// The rows with as many; those of the last cell, where it stands apart.
    pub(crate) latest: Vec<Row>,
    /// Whether the last cell stands apart.
    pub(crate) apart: bool,
}

/// What is kept of the rows that are dropped: their entries, where they are kept.
#[derive(Drop)]
pub(crate) struct DroppedRows {
    /// Whether entries of dropped rows are kept, for a certificate.
    pub(crate) keeps_entries: bool,
    /// The entries of these rows, in their order.
    pub(crate) entries: Vec<Entry>,
}

impl DroppedRows {
    /// Takes further rows. `Err`: out of memory.
    pub(crate) fn take(&mut self, rows: &[Row]) -> Result<(), AllocError>
        ensures keeps_entries { self.new.keeps_entries ≡ self.old.keeps_entries }
        ensures taken { (gone : List Row) → HasEntries self.old gone
            → OnOk result (HasEntries self.new (gone ++ rows.now)) }
    {
        if self.keeps_entries {
            push_entries(&mut self.entries, rows)?;
        }
        Ok(())
    }
}

/// Appends the entries of rows to others.
fn push_entries(entries: &mut Vec<Entry>, rows: &[Row]) -> Result<(), AllocError>
    ensures { OnOk result (entries.new.items ≡ entries.old.items ++ map (λ r. r.entry) rows.now) }
{
    for row in rows {
        entries.push(row.entry)?;
    }
    Ok(())
}

impl CrossesThreads for Rows {}

impl Rows {
    /// No rows. It takes no memory.
    pub(crate) fn none(alloc: Global) -> Rows {
        Rows {
            gone: 0,
            earlier: Vec::new(alloc),
            latest: Vec::new(alloc),
            apart: false,
        }
    }

    /// Drops all rows, and reserves memory for this many of either kind. `Err`: out of memory.
    pub(crate) fn clear(&mut self, capacity: usize) -> Result<(), AllocError>
        ensures { OnOk result (HasNone self.new) }
    {
        self.gone = 0;
        self.apart = false;
        self.earlier.clear();
        self.latest.clear();
        self.earlier.reserve(capacity)?;
        self.latest.reserve(capacity)?;
        Ok(())
    }

    /// How many rows there are, with those that are dropped.
    pub(crate) fn count(&self) -> usize {
        self.gone
            .saturating_add(self.earlier.len())
            .saturating_add(self.latest.len())
    }

    /// The rows from which a phase can be served.
    pub(crate) fn source(&self, phase: u8) -> &[Row]
        ensures { result.now ≡ source_of self.now phase }
    {
        if phase == 0 || self.apart {
            self.earlier.as_slice()
        } else {
            self.latest.as_slice()
        }
    }

    /// How many rows stand before those.
    pub(crate) fn base(&self, phase: u8) -> usize
        requires { self.now.gone + length self.now.earlier.items < 2 ^ 64 }
        ensures { result ≡ base_of self.now phase }
    {
        if phase == 0 || self.apart {
            self.gone
        } else {
            self.gone + self.earlier.len()
        }
    }

    /// Goes on from the cell with these counts to the next ones. Where these have more clusters of the first phase, the
    /// earlier rows are dropped.
    pub(crate) fn enter(
        &mut self,
        counts: &[u8; 4],
        next: &[u8; 4],
        past: &mut DroppedRows,
    ) -> Result<(), AllocError>
        requires { self.old.gone + length self.old.earlier.items < 2 ^ 64 }
        ensures keeps_entries { past.new.keeps_entries ≡ past.old.keeps_entries }
        ensures entered { (gone : List Row) → HasEntries past.old gone
            → OnOk result (IsEntered (HasEntries past.new) (slice_index counts.now 0)
            (slice_index next.now 0) gone self.old self.new) }
    {
        if next[0] <= counts[0] {
            return Ok(());
        }
        past.take(self.earlier.as_slice())?;
        self.turn();
        Ok(())
    }

    /// Where nothing more is reached from the earlier rows, drops them, and the last cell stands apart. `Err`: out of
    /// memory.
    pub(crate) fn leave(&mut self, ends: bool, past: &mut DroppedRows) -> Result<(), AllocError>
        requires { self.old.gone + length self.old.earlier.items < 2 ^ 64 }
        ensures keeps_entries { past.new.keeps_entries ≡ past.old.keeps_entries }
        ensures left { (gone : List Row) → HasEntries past.old gone
            → OnOk result (IsLeft (HasEntries past.new) ends gone self.old self.new) }
    {
        if !ends {
            return Ok(());
        }
        past.take(self.earlier.as_slice())?;
        self.turn();
        self.apart = true;
        Ok(())
    }

    /// Drops the earlier rows. The latest ones become the earlier.
    fn turn(&mut self)
        requires { self.old.gone + length self.old.earlier.items < 2 ^ 64 }
        ensures gone { self.new.gone ≡ self.old.gone + length self.old.earlier.items }
        ensures earlier { self.new.earlier.items ≡ self.old.latest.items }
        ensures latest { self.new.latest.items ≡ [] }
        ensures apart { self.new.apart ≡ self.old.apart }
    {
        self.gone += self.earlier.len();
        swap(&mut self.earlier, &mut self.latest);
        self.latest.clear();
    }
}
