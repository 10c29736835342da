//! The commands that run a network under other controllers than the planners, or under several, and that tell how long its queues can wait.
#![tactic(auto)]

mod actuate;
mod bounds;
mod bounds_text;
mod compare;
mod compare_fixed;
mod fixed;
mod fixed_bounds_text;
mod kinds;
mod scale;
mod spill;
mod spill_report;

pub use actuate::actuate_job;
pub use bounds::{BoundsFixedWork, BoundsWork};
pub use compare::compare_job;
pub use compare_fixed::CompareFixedWork;
pub use fixed::FixedWork;
pub use scale::scale_job;
pub use spill::spill_job;
pub use spill_report::SpillActuatedWork;
