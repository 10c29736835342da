//! What all commands share: their texts, fetched from a shelf and read; what a command means, as one value; how it ends, each status with its
//! cause; and the refusals, each with its line and its status.
#![tactic(auto)]

mod ending;
mod refusals;
mod status;
mod texts;
mod works;

pub use ending::{Made, end};
pub use refusals::{Named, Refusal, TextPlace, refuse};
pub use status::Status;
pub use texts::{Flaw, MOST_BYTES, TextKind, fetch, too_long};
pub use works::{Work, job};
