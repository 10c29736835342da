//! The shared boards whose forecasts are read beside the writer: each link has one pass that publishes and one that reads. A reading
//! looks at the newest version while it holds the link's turn, and copies it when the turn is given back; where no place for a reader
//! is free or another version is shown, it copies under the turn.
#![tactic(auto)]

mod boards;
mod calls;
mod copies;
mod ends;
mod newest;
mod ready;
mod slots;
mod version_rule;

pub use boards::{SnapBoards, SnapPass};
pub use copies::CopyGate;
pub use ends::Ends;
pub use slots::SnapLog;
