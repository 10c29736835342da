//! Types that every crate above shares: a list and a text that contracts see as plain lists, and
//! a counter of steps; and the mark of types that cross threads.
#![tactic(auto)]

pub mod items;
pub mod steps;
pub mod text;
pub mod threads;
