//! A node's round at boards that other nodes read and publish on at once: it makes its board steps by calls of its own pass; and what
//! the calls of all passes tell of the rounds of a network, however the threads ran.
#![tactic(auto)]

mod board_steps;
mod calls;
mod laws;
mod playing;
mod round_setting;

pub use calls::node_calls;
pub use laws::law_of_round_calls;
pub use playing::{begin, play};
pub use round_setting::RoundSetting;
