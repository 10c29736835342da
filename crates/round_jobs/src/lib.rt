//! The commands that decide a round of a network: all of its nodes, or one of them; and `serve`, which answers one request after another.
#![tactic(auto)]

mod answers;
mod decide;
mod kinds;
mod laws;
mod requests;
mod service;
mod states;

pub use decide::{DecideNodeWork, DecideWork};
pub use kinds::StateFile;
pub use laws::law_of_next_rounds;
pub use service::serve;
