//! The layers of the forward table, each extended in pieces that are joined.
#![tactic(auto)]

mod joins;
mod layers;
mod next;
mod ways;
mod whole_certificates;

pub use joins::{join_pieces, law_of_pieces};
pub use next::extend;
pub use whole_certificates::certify_par;
