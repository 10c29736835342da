//! The top call: the words of the program, over a shelf of texts and two sinks; the program, which serves a source besides; and the
//! words, files and streams of a process, with which it is called.
#![tactic(auto)]

mod process;
mod serving;
mod top;

pub use audit_jobs::{audit_job, queues_job};
pub use commands::{Status, Work, job};
pub use controller_jobs::{
    BoundsFixedWork, BoundsWork, CompareFixedWork, FixedWork, SpillActuatedWork, actuate_job,
    compare_job, scale_job, spill_job,
};
pub use network_jobs::{
    TotalsWork, UpgradeWork, grid_job, instance_job, net_job, replay_job, turns_job,
};
pub use planner_jobs::{
    certify_bound_job, certify_job, certify_par_job, check_job, law_of_whole_certificates, plan_job,
};
pub use process::run;
pub use round_jobs::{DecideNodeWork, DecideWork, serve};
pub use scene_jobs::{NetworkWork, SceneWork, network_job, scene_job};
pub use serving::program;
pub use top::signal;
