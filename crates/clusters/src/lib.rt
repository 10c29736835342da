//! From what a node senses and hears to the clusters that it plans: inflow, smoothing, platoons and their window.
#![tactic(auto)]

mod cuts;
mod inflows;
mod loads;
mod node_platoons;
mod parts;
mod smoothing;
mod spans;
mod vehicle_groups;
mod windows;

pub use inflows::{sensed_of, stood_on};
pub use node_platoons::{expected_platoons, law_without_options, platoons};
pub use parts::Parts;
pub use smoothing::smooth;
pub use vehicle_groups::{Part, Platoon, Window};
pub use windows::window;
