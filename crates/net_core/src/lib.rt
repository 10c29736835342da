//! The run of a history, given as a list: one thread does the nodes' board steps in any lawful order. And what the run of the turn
//! order leaves where neither the history nor the plans are kept.
#![tactic(auto)]

mod acts;
mod cores;
mod faults;
mod first_parts;
mod history_run;
mod keeping;
mod parts;
mod stepping;
mod turn_runs;

pub use cores::Core;
pub use faults::StepFault;
pub use histories::{History, lawful, merge, turn_order};
pub use history_run::run;
pub use runs::RunRecord;
pub use turn_runs::totals_of_turns;
