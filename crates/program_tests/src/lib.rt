//! Tests of what no clause says and no command shows: of the program's calls where they fail, of shared boards, and of runs in threads.
#![tactic(auto)]

#[cfg(test)]
mod boards;
#[cfg(test)]
mod gates;
#[cfg(test)]
mod program;
#[cfg(test)]
mod threads;
