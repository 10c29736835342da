//! The rounds of a network in threads: each node's round is a task of its own, which whichever thread is free does, with the node's own
//! pass at the shared boards; after each round the passes meet, the world moves, and the plan records go to the plans of the run.
#![tactic(auto)]

mod all_nodes;
mod lights;
mod network_ends;
mod network_runs;
mod node_tasks;
mod rounds;
mod set_up;

pub use network_ends::{link_ends, open_boards};
pub use network_runs::{run_rounds, run_rounds_snap};
