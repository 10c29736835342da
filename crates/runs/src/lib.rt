//! The run of a history: what the nodes of a network plan, round by round, whatever order their board steps take, and what every
//! run keeps; the actors of a network between two rounds; the record of a run that is over, and what is left of one whose plans are
//! not kept.
#![tactic(auto)]

mod laws;
mod network_actors;
mod plan_tallies;
mod planned_waits;
mod records;
mod run_records;

pub use laws::{law_of_one_run, law_of_runs};
pub use network_actors::{Actors, actors_of};
pub use plan_tallies::PlanTally;
pub use planned_waits::{law_of_planned_lines, law_of_planned_waits};
pub use records::{RunRecord, RunTotals};
pub use run_records::{EmptyRecord, empty_plans, empty_record, record_of, totals_of};
