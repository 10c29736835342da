//! The record of a run.

use audit::LineRun;

/// What a run leaves: the timeline of each node after the last round, and what the world counted of each link and in all.
///
/// docs/RULES.md, "Actuated control".
pub type ActRecord = LineRun;
