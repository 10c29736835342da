//! What all forms of shared boards have in common: one board for each link, which threads of the caller's read and publish on at once,
//! each with a pass of its own. All that belongs to a link is in its slot of one table, and what a slot is differs from form to form.
//! The rule of the boards is what a table of stamps, turns and logs keeps at every moment, whatever a slot of the table holds for a link's
//! log, with the seven kinds of step that keep it; no code runs in `rule` and `views`.
#![tactic(auto)]

mod boards;
mod closes;
mod meets;
mod opens;
mod pass;
mod publishes;
mod reads;
mod rule;
mod slots;
mod turns;
mod views;

pub use boards::Boards;
pub use closes::drop_passes;
pub use meets::Meeting;
pub use opens::idle_passes;
pub use pass::Pass;
pub use reads::Drawn;
pub use rule::{
    BoardRequest, BoardRule, DealPass, DrawPublish, DrawRead, EndPass, GiveTurn, HearCourier,
    PassRequest, SendCourier, Stands, TakeTurn,
};
pub use slots::{LinkSlot, Settled};
pub use views::{Entry, Flight, Terms, View};
