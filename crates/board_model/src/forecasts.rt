//! Forecasts: rows of seconds with amounts.
ghost use Rattle.std.specs.Prelude.{◌≡◌, ◌<◌, ◌≤◌, [], IfOk, length};
ghost use Rattle.std.specs.List.Sorted.{IsNonDecreasingBy, IsPartitionPoint};
ghost use Rattle.board_model.specs.declared.forecasts.Row.{Row};

use foundation::threads::CrossesThreads;
use std::alloc::{AllocError, Global};
use std::marker::Model;

/// One row of a forecast: how much comes in one second.
///
/// docs/RULES.md, "Forecast".
#[derive(Debug, Clone, Copy, PartialEq, Eq)]
pub struct Row {
    /// The second, 0 to 100,000.
    pub second: u32,
    /// What comes in it, 1 to 80,000 thousandths of a vehicle.
    pub amount: u32,
}

impl CrossesThreads for Row {}

/// The place of the first row that is not before the second, found by halves.
fn first_from(rows: &[Row], second: u32) -> usize
    requires { IsNonDecreasingBy (λ (row : Row). row.second) rows.now }
    ensures bound { result ≤ length rows.now }
    ensures split { IsPartitionPoint (λ (row : Row). row.second < second)
        (λ (row : Row). second ≤ row.second) rows.now result }
{
    rows.partition_point(|row| row.second < second)
}

/// Which vehicles will come, and when: at most 180 rows whose seconds rise strictly, each within its bounds. Contracts
/// see it as the list of its rows.
///
/// docs/RULES.md, "Forecast".
#[derive(Debug, Drop)]
pub struct Forecast {
    rows: Vec<Row>,
}

impl Model for Forecast {
    ghost use Rattle.std.specs.Prelude.{List};
    ghost use Rattle.board_model.specs.declared.forecasts.Row.{Row};

    ghost Value = { List Row };

    ghost use Rattle.board_model.specs.Forecasts.{IsForecast};

    ghost view = { λ forecast. forecast.rows.items };

    ghost invariant = { λ forecast. IsForecast forecast.rows.items };
}

impl CrossesThreads for Forecast {}

impl PartialEq for Forecast {
    ghost use Rattle.std.proofs.Common.{rules};
    ghost use Rattle.std.specs.Cmp.Rules.{comparing};
    ghost use Rattle.board_model.specs.Forecasts.{have_same_rows};

    ghost eq = { have_same_rows };

    ghost laws = { Prim.search (comparing, rules) };

    fn eq(&self, other: &Forecast) -> bool {
        self.rows == other.rows
    }
}

impl Eq for Forecast {
    ghost use Rattle.std.proofs.Common.{rules};
    ghost use Rattle.std.specs.Cmp.Rules.{comparing};

    ghost laws = { Prim.search (comparing, rules) };
}

impl Forecast {
    ghost use Rattle.std.specs.Prelude.{◌≡◌, ◌<◌, ◌≤◌, [], ◌∷◌, ◌++◌, IfOk, if◌then◌else◌, is_ok, length};
    ghost use Rattle.board_model.specs.Forecasts.{IsForecast, IsRow, IsAboveLast, most_in_second, most_rows, seconds, amount_at};

    /// The forecast of no row. It keeps the allocator, of which `push` takes its memory.
    ///
    /// docs/RULES.md, "Forecast".
    pub fn empty(alloc: Global) -> Forecast
        ensures { result ≡ [] }
    {
        Forecast {
            rows: Vec::new(alloc),
        }
    }

    /// The forecast of no row, with capacity for `rows` rows. `Err`: out of memory.
    ///
    /// docs/RULES.md, "Forecast".
    pub fn with_capacity(alloc: Global, rows: usize) -> Result<Forecast, AllocError>
        ensures { IfOk result (λ forecast. forecast ≡ []) }
    {
        Ok(Forecast {
            rows: Vec::with_capacity(alloc, rows)?,
        })
    }

    /// Adds a row at the end. There are fewer than 180 rows, the row is within its bounds, and its second is above that
    /// of the last row.
    ///
    /// `Err`: out of memory; the forecast stays as it was.
    ///
    /// docs/RULES.md, "Forecast".
    pub fn push(&mut self, r: Row) -> Result<(), AllocError>
        requires few { length self.old < most_rows }
        requires above { IsAboveLast (seconds self.old) r.second }
        requires row { IsRow r }
        ensures rows { self.new ≡ (if is_ok result then self.old ++ r ∷ [] else self.old) }
        ensures forecast { IsForecast self.new }
    {
        self.rows.push(r)?;
        Ok(())
    }

    /// The rows, in the order of their seconds.
    ///
    /// docs/RULES.md, "Forecast".
    pub fn rows(&self) -> &[Row]
        ensures value { result.now ≡ self.now }
        ensures forecast { IsForecast self.now }
    {
        self.rows.as_slice()
    }

    /// What comes in this second, in thousandths of a vehicle: at most 80,000, and 0 where no row has the second.
    ///
    /// docs/RULES.md, "Forecast".
    pub fn amount_at(&self, second: u32) -> u32
        ensures value { result ≡ amount_at self.now second }
        ensures bounds { result ≤ most_in_second }
    {
        let rows = self.rows.as_slice();
        match rows.get(first_from(rows, second)) {
            Some(row) if row.second == second => row.amount,
            _ => 0,
        }
    }

    /// An equal forecast. `Err`: out of memory.
    ///
    /// docs/RULES.md, "Forecast".
    pub fn copy(&self, alloc: Global) -> Result<Forecast, AllocError>
        ensures { IfOk result (λ forecast. forecast ≡ self.now) }
    {
        let rows = Vec::from_slice(alloc, &self.rows)?;
        Ok(Forecast { rows })
    }
}
