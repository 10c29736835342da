//! One round of a network's nodes from a state that was sensed: what each of them plans, how its signal goes on, and what is then on
//! the boards; and the text of it.
#![tactic(auto)]

mod board_records;
mod decision_texts;
mod decisions;
mod kept_decisions;
mod laws;
mod lines;
mod node_turns;
mod rounds;
mod turn_records;

pub use decision_texts::{decision_text, node_decision_text};
pub use decisions::{Decision, NodeDecision, decide, decide_node};
pub use kept_decisions::keep_decision;
pub use laws::{law_of_chains, law_of_decisions, law_of_origins, law_of_own_turns};
pub use lines::rows_from;
