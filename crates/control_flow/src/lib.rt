//! The timelines of a signal: the greens of a plan of servings, and the state of the signal at a second.
#![tactic(auto)]

pub mod greens;
mod lawful_rows;
mod ring;
mod seconds;
mod splicing;
mod timelines;

pub use lawful_rows::{follows, is_green, is_lawful};
pub use seconds::{colour, green_at, head_at, sign_at};
pub use timelines::{rotation, rotation_by_calls, timeline};
