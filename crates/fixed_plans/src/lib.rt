//! Fixed plans: the greens that each signal of a network shows in a fixed cycle, the file that lists them, the timelines
//! that they make, and how long queues can wait under them.
#![tactic(auto)]

mod bounds;
mod cycles;
mod fault_codes;
mod faults;
mod fields;
mod fixed_waits;
mod order;
mod plan;
mod reader;
mod reds;
mod rows;
mod texts;

pub use bounds::fixed_bounds;
pub use cycles::fixed_lines;
pub use faults::FixedFault;
pub use fixed_waits::{law_of_cycles, law_of_fixed_waits};
pub use plan::FixedPlan;
pub use reds::{fixed_reds, law_of_fixed_reds};
pub use rows::FixedRow;
pub use texts::read_fixed_plan;
