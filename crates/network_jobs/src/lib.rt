//! The commands over a network whose nodes plan: the report of the turn order's run, and what it counted; that of a history's run, and of
//! one in threads; the instance that a node planned in a run; the summary of a run on a grid; and a network as a file of the least version
//! that says it.
#![tactic(auto)]

mod grid;
mod history_runs;
mod instance;
mod kinds;
mod laws;
mod net;
mod replay;
mod rounds;
mod summary;
mod totals;
mod turns;
mod upgrade;

pub use grid::grid_job;
pub use instance::instance_job;
pub use laws::{law_of_instances, law_of_replays};
pub use net::net_job;
pub use replay::replay_job;
pub use totals::TotalsWork;
pub use turns::turns_job;
pub use upgrade::UpgradeWork;
