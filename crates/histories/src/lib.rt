//! Histories of a network: who does which board step, one after another. Which are lawful, the turn order, the history that
//! the logs of the boards tell, and the place of each thread's call in it.
#![tactic(auto)]

mod call_laws;
mod history;
mod merging;
mod progress;
mod steps;

pub use call_laws::law_of_merged_calls;
pub use history::{
    History, law_of_histories, law_of_reading_first, law_of_versions, lawful, turn_order,
};
pub use merging::merge;
pub use progress::{Progress, Stop};
pub use steps::{BoardStep, law_of_steps, node_steps, step_count};
