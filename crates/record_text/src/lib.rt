//! Files of records: the records of a text, one after another, and the links and nodes that their fields name.
#![tactic(auto)]

mod decimals;
mod names;
mod records;
mod shapes;
mod walks;

pub use decimals::digits;
pub use names::{link_named, node_named};
pub use records::{next_record, open};
pub use shapes::{field, is_record};
pub use walks::{RecordTaker, take_records};
