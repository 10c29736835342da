//! What a reading has when it draws its stamp.
ghost use Rattle.std.specs.Prelude.{◌≡◌, []};

use crate::version_rule::ReadGuard;
use board_model::Forecast;

/// A look that goes on when the turn is given back, and a forecast of no row that has the capacity for what it looks at.
pub struct Beside {
    pub(crate) look: ReadGuard,
    pub(crate) blank: Forecast,
    ghost empty: { blank ≡ [] },
}

/// What a reading has when it draws its stamp: a look at the newest version; or its forecast, where there is no such look.
pub enum Ready {
    /// A look, which is copied when the turn is given back.
    Beside(Beside),
    /// The forecast, copied under the turn.
    Copied(Forecast),
}
