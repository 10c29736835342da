//! What a node tells its neighbours: when the vehicles that it has planned to serve will come to them.
#![tactic(auto)]

mod exit_flow;
mod forecasting;
mod servings;

pub use forecasting::forecast;
