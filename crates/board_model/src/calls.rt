//! Calls on boards, for contracts and proofs alone.
use crate::forecasts::Forecast;

/// What a node did at a link, as contracts of the boards see it: of a reading and of a publishing. No value of it is made.
///
/// docs/DESIGN.md, "Shared boards".
pub struct Call {
    /// The number of the link.
    pub link: u32,
    /// The stamp that the call drew.
    pub stamp: u64,
    /// It published. Else it read.
    pub publishes: bool,
    /// The version that it read or made.
    pub version: u32,
    /// The forecast of that version.
    pub forecast: Forecast,
}
