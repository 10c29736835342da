//! The records of what the signals showed and the world counted, in reports and files like them; and records, written one after another.
#![tactic(auto)]

mod digits;
mod entries;
mod records;
mod shown;

pub use digits::{Digits, digits_of};
pub use entries::{is_header, seven_fields, write_header};
pub use records::{finish, start, write_record};
pub use shown::{counted_text, write_shown};
