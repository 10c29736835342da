//! The commands, and the words that each has.
#![tactic(auto)]

mod words;

pub use words::{Command, command_of};
