//! What the reader of a link is shown.
use board_model::Forecast;
use left_right::Absorb;
use std::alloc::{AllocError, Global};

/// The newest version with its forecast.
#[derive(Drop)]
pub struct Newest {
    pub(crate) alloc: Global,
    pub(crate) version: u64,
    pub(crate) forecast: Forecast,
}

impl Absorb<Newest> for Newest {
    type State = (u64, Forecast);

    ghost state = { λ shown. (shown.version, shown.forecast) };

    ghost applied = { λ before next. (next.version, next.forecast) };

    fn absorb_first(&mut self, operation: &Newest, _other: &Newest) -> Result<(), AllocError> {
        self.forecast = operation.forecast.copy(operation.alloc)?;
        self.version = operation.version;
        Ok(())
    }

    fn absorb_second(&mut self, operation: Newest, _other: &Newest) -> Result<(), Newest> {
        *self = operation;
        Ok(())
    }
}
