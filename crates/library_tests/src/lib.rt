//! Tests of what no clause says and no command shows: of the planner's crates, of networks and what becomes of them, and of the rounds
//! of nodes.
#![tactic(auto)]

#[cfg(test)]
mod networks;
#[cfg(test)]
mod planner;
#[cfg(test)]
mod rounds;
