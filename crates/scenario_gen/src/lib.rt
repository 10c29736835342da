//! Square grids made from a number: a network of as many nodes in each row as in each column, and what enters it.
#![tactic(auto)]

mod drafting;
mod drawing;
mod grids;
mod layout;

pub use grids::grid;
