//! The shared boards whose slots are the logs: one board for each link, which threads of the caller's read and publish on at once, each
//! with a pass of its own. When the threads are done, the boards are closed into one log for each link, which has just their calls. All
//! that they do is in `link_boards`.
#![tactic(auto)]

mod boards;
mod calls;
mod meets;

pub use boards::{Boards, Pass};
pub use meets::Meeting;
