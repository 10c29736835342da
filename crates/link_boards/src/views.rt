//! What a seat at the table knows. No value of these types is made, but for the terms.
use board_model::{BoardEvent, Call};
use std::collections::LinkedList;

/// The calls of the pass with a number. No value of it is made.
///
/// docs/DESIGN.md, "Shared boards".
pub struct Entry {
    /// The number of the pass.
    pub number: u64,
    /// Its calls, in their order.
    pub calls: LinkedList<Call>,
}

/// A call in flight. No value of it is made.
///
/// docs/DESIGN.md, "Shared boards".
pub struct Flight {
    /// The link whose turn is taken.
    pub link: u64,
    /// The call has drawn its stamp.
    pub drawn: bool,
    /// The log that the link stands for meanwhile.
    pub events: LinkedList<BoardEvent>,
}

/// What a seat knows: a pass, a courier between passes, or nothing any more. No value of it is made.
///
/// docs/DESIGN.md, "Shared boards".
pub struct View {
    /// The least stamp that it may draw next.
    pub known: u64,
    /// How many calls it may still make.
    pub left: u64,
    /// Its own number and calls, and then those of ended passes. A courier and a spent seat have none.
    pub entries: LinkedList<Entry>,
    /// The call in flight.
    pub flight: Option<Flight>,
    /// It makes the passes: it is pass 0.
    pub deals: bool,
    /// How many passes are made, where it makes them.
    pub made: u64,
}

/// What the table is told when it is made.
///
/// docs/DESIGN.md, "Shared boards".
#[derive(Debug, Clone, Copy, PartialEq, Eq)]
pub struct Terms {
    /// The number of passes.
    pub passes: u64,
}
