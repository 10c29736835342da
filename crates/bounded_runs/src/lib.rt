//! The runs that commands make by the bounded table: of a history, with all that is kept of it, and of the turn order, of which totals are
//! left; and the line of totals.
#![tactic(auto)]

mod kept_runs;
mod totals;

pub use kept_runs::{kept_run, turn_totals};
pub use totals::push_totals;
