//! Actuated control: each node holds a green while vehicles call for its phase, by what the node itself senses, and
//! else lets the ring turn; the run of a network under it, and its report.
#![tactic(auto)]

mod act_lines;
mod act_reports;
mod act_runs;
mod act_steps;
mod actuated_waits;
mod calls;
mod near_calls;
mod records;
mod renewing;
mod sensing;

pub use act_lines::act_line;
pub use act_reports::act_report;
pub use act_runs::{law_of_one_run, run_actuated};
pub use act_steps::{act_rounds, act_step};
pub use actuated_waits::{law_of_actuated_lines, law_of_actuated_waits};
pub use calls::calling;
pub use records::ActRecord;
pub use renewing::{first_lines, renew_lines};
