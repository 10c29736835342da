//! One intersection's instance, what a sequence of servings means, and which answer is the best.
#![tactic(auto)]

mod fault_codes;
mod faults;
mod instances;
mod listing;
mod planners;
mod replays;
mod texts;

pub use faults::{InstanceFault, SeqFault};
pub use instances::Instance;
pub use listing::{ServingsFault, servings};
pub use planners::{Answer, PlainPlanner, Planner, best_answer};
pub use replays::{Timed, replay};
pub use texts::{TextFault, plan_where, read_instance, write_instance};
