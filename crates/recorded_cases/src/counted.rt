//! Shelves and sinks that count how often they are called.

use outside_world::{Failed, Shelf, ShelfFault, Sink};
use std::alloc::Global;

/// A shelf or a sink, and how often it was called.
#[derive(Drop)]
pub(crate) struct Counted<T> {
    pub(crate) of: T,
    pub(crate) calls: u32,
}

impl<T> Counted<T> {
    /// What was never called.
    pub(crate) fn new(of: T) -> Self {
        Counted { of, calls: 0 }
    }
}

impl<S: Shelf> Shelf for Counted<S> {
    ghost state = { λ counted. S.state counted.of };

    fn fetch(&mut self, alloc: Global, name: &str, most: usize) -> Result<Vec<u8>, ShelfFault> {
        self.calls = self.calls.saturating_add(1);
        self.of.fetch(alloc, name, most)
    }
}

impl<S: Sink> Sink for Counted<S> {
    ghost state = { λ counted. S.state counted.of };

    fn put(&mut self, piece: &[u8]) -> Result<(), Failed> {
        self.calls = self.calls.saturating_add(1);
        self.of.put(piece)
    }
}
