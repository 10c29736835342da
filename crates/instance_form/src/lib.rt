//! The text of an intersection's instance: its lines and numbers, and not yet whether they are an instance.
#![tactic(auto)]

mod form;
mod lines;
mod lists;
mod reading;
mod versions;
mod writing;

pub use form::{Form, FormFault, Version};
pub use reading::{law_of_instance_texts, read_form, read_front};
pub use writing::write_form;
