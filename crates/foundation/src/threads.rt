//! The mark of types that cross threads.

/// Types whose values are moved to other threads and seen by several at once. A type says so by an `impl`, which the
/// checker refuses where a part of it must stay in one thread.
pub trait CrossesThreads: Send + Sync {}
