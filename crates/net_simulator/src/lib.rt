//! The world: the vehicles on the links of a road network, second by second.
#![tactic(auto)]

mod extra_greens;
mod lights;
mod lines;
pub mod link_seconds;
pub mod rows;
mod seconds;
pub mod sensing;
pub mod starts;
mod totals;
mod world;

pub use extra_greens::law_of_extra_greens;
pub use lights::Lights;
pub use lines::{Lines, end_of_run, play};
pub use totals::{LinkTotals, Totals};
pub use world::{World, law_of_lights};
