//! The report of a run: what was read and published, planned, shown and counted, as a file of records; and the file of a history,
//! which a report is too.
#![tactic(auto)]

mod entries;
mod fault_codes;
mod faults;
mod plans;
mod reports;
mod steps;
mod texts;

pub use faults::HistoryFault;
pub use reports::{join_report, law_of_reports, render, render_outcome, render_steps};
pub use texts::read_history;
