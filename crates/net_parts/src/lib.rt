//! The parts of a road network: by names, as they are in its file (a draft), with the faults of such files; and by numbers, where nodes and
//! links are numbered from 0 in the order of the file, and numbers stand for their names.
#![tactic(auto)]

mod drafts;
mod fault_codes;
mod faults;
mod limits;
mod names;
mod parts;
mod phases;
mod roads;

pub use drafts::{
    Draft, DraftConflict, DraftLink, DraftNode, DraftPhase, DraftTurn, DraftYield, Run,
};
pub use faults::{NetFault, Place, Section};
pub use limits::{
    Limits, MOST_CONFLICTS, MOST_LINKS, MOST_LOOK, MOST_NODES, MOST_OF_ALL, MOST_ROUNDS, MOST_SAT,
    MOST_SECONDS, MOST_TRAVEL, SMALL_SECONDS,
};
pub use names::Names;
pub use parts::Parts;
pub use phases::phase_with;
pub use roads::{Link, Turn, Walk};
