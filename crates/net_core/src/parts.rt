//! What a run is made of, and what a core keeps of it.
use board_model::Forecast;
use intersection_actor::PlanRecord;
use net_simulator::World;
use runs::Actors;

/// The board of a link: its newest version, and the forecast of that version.
#[derive(Drop)]
pub(crate) struct Board {
    pub(crate) version: u32,
    pub(crate) forecast: Forecast,
}

/// What the steps of a run change.
#[derive(Drop)]
pub(crate) struct Parts {
    /// How many rounds are done.
    pub(crate) round: u32,
    pub(crate) actors: Actors,
    pub(crate) boards: Vec<Board>,
    pub(crate) world: World,
}

/// What a core keeps beside the parts of its run.
#[derive(Drop)]
pub(crate) struct Kept {
    /// The nodes that have done board steps, one after another.
    pub(crate) history: Vec<u32>,
    /// The plans of the rounds that are done.
    pub(crate) plans: Vec<PlanRecord>,
    /// How many nodes want something in the round under way.
    pub(crate) busy: u32,
}
