//! The queues of a network over time, under timelines that are given: how long they are and what is on the links, second by
//! second, and the longest of each link.
#![tactic(auto)]

mod link_states;
mod series;

pub use link_states::Peak;
pub use series::queue_series;
