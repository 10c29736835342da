//! Forecasts of vehicles, and the board of one link as one thread uses it: a log of who read which version, and who
//! published which forecast.
#![tactic(auto)]

mod boards;
mod calls;
mod forecasts;
mod gates;

pub use boards::{BoardEvent, BoardKind, BoardLog, Heard, Seen, Sent};
pub use calls::Call;
pub use forecasts::{Forecast, Row};
pub use gates::{Gate, OpenGate};
