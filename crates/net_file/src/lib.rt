//! The road network file: how a network is read from it, and written.
#![tactic(auto)]

mod by_names;
mod draft_texts;
mod files;
mod puts;
mod tables;

pub use files::{read_network, write_network};
