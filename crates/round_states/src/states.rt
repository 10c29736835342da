//! The state in which a round begins.

use board_model::Forecast;
use control_flow::greens::Timeline;
use foundation::items::Items;
use foundation::threads::CrossesThreads;
use road_net::Sensed;

/// What stands on the board of a link: the forecast that was published last.
///
/// docs/FORMATS.md, "State of a round".
#[derive(Drop)]
pub struct LinkBoard {
    /// The version of the forecast, at most one above the number of the round; 0 where none was published.
    pub version: u32,
    /// The forecast; no row where none was published.
    pub forecast: Forecast,
}

impl CrossesThreads for LinkBoard {}

/// The state in which a round begins, or in which some of its nodes have had their turns, whoever brought the network there.
///
/// docs/FORMATS.md, "State of a round".
#[derive(Drop)]
pub struct RoundState {
    /// The round, from 0. It begins in second `round` times the network's step.
    pub round: u32,
    /// What each node senses in the first second of the round, by node.
    pub sensed: Items<Sensed>,
    /// The timeline of each node, by node. A row of it ends after the first second of the round, where the node is to have its turn.
    pub lines: Items<Timeline>,
    /// The board of each link, by link.
    pub boards: Items<LinkBoard>,
}

impl CrossesThreads for RoundState {}
