//! The world in which a full link holds back those who want to enter it; and stores: how much each link of a network can hold, and the
//! file that lists it.
#![tactic(auto)]

mod amounts;
mod counts;
mod discharges;
mod ends;
mod fault_codes;
mod laws;
mod lines;
mod searches;
mod signals;
mod store;
mod store_faults;
mod store_fields;
mod store_reader;
mod store_texts;
mod totals;
mod worlds;

pub use counts::spill_links;
pub use laws::{law_of_ample_storage, law_of_storage, law_of_stored_lights};
pub use lines::spill_lines;
pub use store::Store;
pub use store_faults::StoreFault;
pub use store_texts::read_store;
pub use totals::SpillTotals;
pub use worlds::SpillWorld;
