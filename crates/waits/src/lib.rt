//! For how long a phase may be without green, and a queue wait until something leaves it, whoever makes the timelines.
#![tactic(auto)]

pub mod bounds;
pub mod laws;

pub use bounds::{NoBound, PhaseBounds, network_bounds, phase_bounds, wait_bound};
pub use laws::{
    law_of_intergreens, law_of_recalls, law_of_rounds, law_of_servings, law_of_turns, law_of_waits,
};
