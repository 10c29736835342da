//! Runs in threads: any two nodes of a round can be inside a reading at the same time.
mod copies;
mod job;
mod pairs;
mod rounds;
mod snap_rounds;
