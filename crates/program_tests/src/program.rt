//! Faults of files, sinks and memory in mid-work, the words of a process, and texts as long as they may be.
mod adapters;
pub(crate) mod calls;
mod faults;
mod long_texts;
mod process;
