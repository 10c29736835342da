//! The state of a round: what is sensed, how far the signals are lined up, and what stands on the boards, as one round of
//! a network begins; and its text.
#![tactic(auto)]

mod asked;
mod boards;
mod by_place;
mod entries;
mod fault_codes;
mod faults;
mod fields;
mod kept_records;
mod limits;
mod lines;
mod order;
mod senses;
mod states;
mod texts;

pub use asked::Asked;
pub use faults::StateFault;
pub use kept_records::KeptRecords;
pub use states::{LinkBoard, RoundState};
pub use texts::{read_state, read_state_with};
