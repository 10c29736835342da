//! One node's rounds: it senses, hears its neighbours, plans, and tells them what it will send.
#![tactic(auto)]

mod actors;
mod plan_fields;
mod planning;
mod reads;
mod recalls;
mod records;

pub use actors::Actor;
pub use plan_fields::{phase_digits, used_text};
pub use records::{PlanRecord, Used, Want};
