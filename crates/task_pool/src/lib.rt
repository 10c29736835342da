//! A pool of threads that last, for tasks that the calling thread lays out and whichever thread is free takes. A task is a
//! value of any type; when it may be done, and what becomes of it, that type says.
#![tactic(auto)]

mod ends;
mod pool;
mod rule;
mod runner;
mod slot;
mod task;
mod views;
mod workers;

pub use pool::TaskPool;
pub use runner::TaskRunner;
pub use task::{PoolJob, Task};
