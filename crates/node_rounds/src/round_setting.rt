//! What nodes play a round by.
use link_boards::{Boards, LinkSlot};
use road_net::Network;
use std::alloc::Global;

/// What a node plays a round by: where it takes memory, the network, the boards, the gate, and the round's number.
///
/// docs/DESIGN.md, "Rounds in threads".
#[derive(Drop)]
pub struct RoundSetting<'a, S: LinkSlot, G> {
    /// Where memory comes from.
    pub alloc: Global,
    /// The network.
    pub net: &'a Network,
    /// The boards on which nodes publish and read.
    pub boards: &'a Boards<S>,
    /// What is called before and within each board step.
    pub gate: &'a G,
    /// The round's number, from 0.
    pub round: u32,
}
