//! The ends of a link: which passes call at it.

/// The two passes that call at a link's board.
///
/// docs/DESIGN.md, "Boards whose forecasts are read beside the writer".
#[derive(Debug, Clone, Copy, PartialEq, Eq)]
pub struct Ends {
    /// The number of the pass that publishes.
    pub writer: u32,
    /// The number of the pass that reads.
    pub reader: u32,
}
