//! Copies of forecasts, and what a caller runs inside them.
ghost use Rattle.std.specs.Prelude.{◌≡◌, ◌<◌, [], ◌∷◌, ◌++◌, length};
ghost use Rattle.board_model.specs.{Forecasts.IsAboveLast, Forecasts.IsRow, Forecasts.most_rows, Forecasts.seconds, declared.forecasts.Row.Row};
ghost use Rattle.snap_boards.specs.Slots.{forecast_in};

use crate::ready::{Beside, Ready};
use board_model::{Forecast, Row};
use std::sync::Wait;

/// What a caller runs inside a copy that goes on beside the writer, to watch or to hold it. No answer depends on it, and it may wait.
///
/// docs/DESIGN.md, "Boards whose forecasts are read beside the writer".
pub trait CopyGate {
    /// It runs once inside the copy of a reading whose turn is given back.
    ///
    /// docs/DESIGN.md, "Boards whose forecasts are read beside the writer".
    fn copying<R: Wait>(&self, rt: &R);
}

/// The gate that does nothing.
pub(crate) struct OpenCopy;

impl CopyGate for OpenCopy {
    fn copying<R: Wait>(&self, _rt: &R) {}
}

/// Adds a row, for which there is capacity. No clause of `push` says that it then succeeds, so it would be tried again.
fn add_row<R: Wait>(rt: &R, forecast: &mut Forecast, row: Row)
    requires few { length forecast.old < most_rows }
    requires above { IsAboveLast (seconds forecast.old) row.second }
    requires row { IsRow row }
    ensures { forecast.new ≡ forecast.old ++ row ∷ [] }
{
    for _ in rt.forever() {
        if forecast.push(row).is_ok() {
            return;
        }
    }
    unreachable!()
}

/// An equal forecast, in one of no row that has the capacity for it.
pub(crate) fn copied<R: Wait>(rt: &R, from: &Forecast, blank: Forecast) -> Forecast
    requires { blank ≡ [] }
    ensures { result ≡ from.now }
{
    let mut forecast = blank;
    let rows = from.rows();
    for k in 0..rows.len() {
        add_row(rt, &mut forecast, rows[k]);
    }
    forecast
}

impl Ready {
    /// The forecast.
    pub(crate) fn finish<R: Wait, C: CopyGate>(self, rt: &R, gate: &C) -> Forecast
        ensures { result ≡ forecast_in self }
    {
        match self {
            Ready::Beside(Beside { look, blank }) => {
                gate.copying(rt);
                let forecast = copied(rt, &look.get().forecast, blank);
                drop(look.leave());
                forecast
            }
            Ready::Copied(forecast) => forecast,
        }
    }
}
