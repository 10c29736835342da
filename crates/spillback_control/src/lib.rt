//! Actuated control in the world in which a full link holds back those who want to enter it.
#![tactic(auto)]

mod records;
mod sensing;
mod spill_runs;

pub use records::SpillRun;
pub use spill_runs::{law_of_one_spill, spill_actuated, spill_run};
