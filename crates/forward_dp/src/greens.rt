//! New greens, found by how long the cluster waits for them.
ghost use Rattle.std.specs.Prelude.{◌≡◌, ℕ, [], None, OnOk, length};
ghost use Rattle.forward_dp.specs.Rows.{AreBestOf, AreLater, ArePlaced, AreRisingPlaces, IsPlaced, row_in};

use crate::rows::{Row, is_no_worse};
use foundation::threads::CrossesThreads;
use std::alloc::{AllocError, Global};
use std::marker::Model;

/// For each wait of a cluster a row, where there is one: as many places as the longest wait so far asks for.
#[derive(Drop)]
pub struct Greens {
    rows: Vec<Option<Row>>,
    first: usize,
    end: usize,
}

impl Model for Greens {
    ghost use Rattle.std.specs.Prelude.{List, Option};
    ghost use Rattle.forward_dp.specs.{Rows.ArePlaced, declared.rows.Row.Row};

    ghost Value = { List (Option Row) };

    ghost view = { λ greens. greens.rows.items };

    ghost invariant = { λ greens. ArePlaced greens.rows.items greens.first greens.end };
}

impl CrossesThreads for Greens {}

impl Greens {
    ghost use Rattle.std.specs.Prelude.{◌≡◌, ◌<◌, ◌≤◌, ℕ, [], None, OnOk, length};
    ghost use Rattle.forward_dp.specs.Rows.{AreBestOf, AreLater, AreRisingPlaces, IsOffered, IsPlaced, row_in};

    /// No rows. It takes no memory.
    pub fn none(alloc: Global) -> Greens
        ensures { (k : ℕ) → row_in result k ≡ None }
    {
        Greens {
            rows: Vec::new(alloc),
            first: usize::MAX,
            end: 0,
        }
    }

    /// Reserves memory for this many rows, at the least. `Err`: out of memory.
    pub fn reserve_rows(&mut self, count: usize) -> Result<(), AllocError>
        ensures { OnOk result (self.new ≡ self.old) }
    {
        self.rows.reserve(count.saturating_sub(self.rows.len()))
    }

    /// Keeps the better of a row and the one with the same wait. `Err`: out of memory.
    pub fn offer(&mut self, wait: u32, row: Row) -> Result<(), AllocError>
        requires { wait ≤ 3600 }
        ensures { OnOk result (IsOffered self.old self.new wait row) }
    {
        let wait = wait as usize;
        if self.rows.len() <= wait {
            self.grow(wait + 1)?;
        }
        self.keep_better(wait, row);
        Ok(())
    }

    /// Has as many places as this, at the least.
    #[cold]
    #[inline(never)]
    fn grow(&mut self, places: usize) -> Result<(), AllocError>
        requires { length self.old ≤ places }
        ensures places { OnOk result (places ≤ length self.new) }
        ensures same { OnOk result ((k : ℕ) → row_in self.new k ≡ row_in self.old k) }
    {
        self.rows.resize(places, None)
    }

    /// Keeps the better of a row and the one in this place.
    #[inline]
    fn keep_better(&mut self, wait: usize, row: Row)
        requires { wait < length self.old }
        ensures { IsOffered self.old self.new wait row }
    {
        match self.rows[wait] {
            Some(there) => {
                if !is_no_worse(&there, &row) {
                    self.rows[wait] = Some(row);
                }
            }
            None => {
                self.rows[wait] = Some(row);
                self.first = self.first.min(wait);
                self.end = self.end.max(wait + 1);
            }
        }
    }

    /// Moves the rows into an empty list, in the order of their waits.
    pub fn drain(&mut self, rows: &mut Vec<Row>) -> Result<(), AllocError>
        requires rising { AreRisingPlaces self.old }
        requires empty { rows.old.items ≡ [] }
        ensures later { OnOk result (AreLater rows.new.items) }
        ensures best { OnOk result (AreBestOf (IsPlaced self.old) rows.new.items) }
        ensures left { OnOk result ((k : ℕ) → row_in self.new k ≡ None) }
    {
        move_rows(self.rows.as_mut_slice(), self.first, self.end, rows)?;
        self.first = usize::MAX;
        self.end = 0;
        Ok(())
    }
}

/// Moves the rows in the places of a span into an empty list, in their order. It stands apart, so that the loop over
/// all places has the registers to itself.
#[inline(never)]
fn move_rows(
    places: &mut [Option<Row>],
    first: usize,
    end: usize,
    rows: &mut Vec<Row>,
) -> Result<(), AllocError>
    requires placed { ArePlaced places.old first end }
    requires rising { AreRisingPlaces places.old }
    requires empty { rows.old.items ≡ [] }
    ensures later { OnOk result (AreLater rows.new.items) }
    ensures best { OnOk result (AreBestOf (IsPlaced places.old) rows.new.items) }
    ensures left { OnOk result ((k : ℕ) → row_in places.new k ≡ None) }
    ensures placed { ArePlaced places.new first end }
    ensures count { length places.new ≡ length places.old }
{
    for wait in first..end {
        if let Some(row) = places[wait] {
            rows.push(row)?;
            places[wait] = None;
        }
    }
    Ok(())
}
