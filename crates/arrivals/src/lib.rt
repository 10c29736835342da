//! Arrivals: the vehicles that enter the network from outside, by link and second, the file that lists them, and
//! arrivals scaled by a factor.
#![tactic(auto)]

mod amounts;
mod checks;
mod fault_codes;
mod fields;
mod joining;
mod row_lists;
mod rows;
mod scaling;
mod texts;

pub use amounts::{Arrivals, next_amount};
pub use rows::{ArrivalRow, RowFault};
pub use scaling::{ScaleFault, scale};
pub use texts::read_arrivals;
