//! The tables of a network file, as TOML gives them, and the draft that they stand for.
#![tactic(auto)]

mod forms;
mod tables;
mod values;

pub use tables::{has_known_version, read_draft};
