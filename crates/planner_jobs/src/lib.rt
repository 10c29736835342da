//! The commands over an instance or a certificate: the best answer, its certificate by the whole table, by the bounded one and in pieces,
//! and the verdict on a certificate.
#![tactic(auto)]

mod answers;
mod certificates;
mod certify;
mod certify_par;
mod check;
mod delivery;
mod kinds;
mod plan;
mod verdicts;

pub use certify::{certify_bound_job, certify_job};
pub use certify_par::{certify_par_job, law_of_whole_certificates};
pub use check::check_job;
pub use plan::plan_job;
