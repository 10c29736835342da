//! The commands over a report, whoever wrote it: the verdict on it, and the queues under its greens.
#![tactic(auto)]

mod audits;
mod kinds;
mod queues;

pub use audits::audit_job;
pub use queues::queues_job;
