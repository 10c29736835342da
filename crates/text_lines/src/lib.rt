//! Numbers and lines of text, read and written: literals and numbers at the front of a text, exactly, whole words that
//! are numbers, and lines of a word and numbers; and faults of texts, each of which tells its own code.
#![tactic(auto)]

mod buffer;
mod faults;
mod fields;
mod lines;
mod number_words;

pub use buffer::Line;
pub use faults::{Fault, push_one, push_two};
pub use fields::{field_u8, field_u32, field_u64, law_of_fields, literal};
pub use lines::{push_line, push_number, push_numbers, put_numbers};
pub use number_words::{number_u32, number_u64, number_within};
