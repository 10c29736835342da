//! Gates: what a caller of the boards runs before a call and inside it.
use foundation::threads::CrossesThreads;
use std::sync::Wait;
use std::thread::Threads;

/// What the caller runs before each board step and inside it, to watch or to hold the threads. No answer depends on it,
/// and the two do what they like: they may wait, and a step goes on once they return.
///
/// docs/DESIGN.md, "Shared boards".
pub trait Gate {
    /// It runs before the board step of the node in the round: a publishing of the link, or else a reading of it. Nodes,
    /// rounds and links count from 0.
    ///
    /// docs/DESIGN.md, "Shared boards".
    fn before<R: Threads + Wait + Sync>(
        &self,
        rt: &R,
        node: u32,
        round: u32,
        link: u32,
        publish: bool,
    );

    /// It runs once inside the node's call, while the call holds the link's turn.
    ///
    /// docs/DESIGN.md, "Shared boards".
    fn inside<R: Threads + Wait + Sync>(&self, rt: &R, node: u32, link: u32, publish: bool);
}

/// The gate that does nothing.
///
/// docs/DESIGN.md, "Shared boards".
#[derive(Debug, Clone, Copy, PartialEq, Eq)]
pub struct OpenGate;

impl CrossesThreads for OpenGate {}

impl Gate for OpenGate {
    fn before<R: Threads + Wait + Sync>(
        &self,
        _rt: &R,
        _node: u32,
        _round: u32,
        _link: u32,
        _publish: bool,
    ) {}

    fn inside<R: Threads + Wait + Sync>(&self, _rt: &R, _node: u32, _link: u32, _publish: bool) {}
}
