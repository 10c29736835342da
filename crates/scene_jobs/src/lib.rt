//! Commands over a network: its text, that of what enters it and a further one, fetched and read; and the generic jobs of those that write
//! something of the first two.
#![tactic(auto)]

mod kinds;
mod scenes;
mod works;

pub use kinds::{ArrivalsFile, NetworkFile};
pub use scenes::{
    NetworkWith, Scene, SceneWith, fetch_network_with, fetch_scene, fetch_scene_with,
};
pub use works::{NetworkWork, SceneWork, network_job, scene_job};
