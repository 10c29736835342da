//! The steps of nodes, which histories are lawful, the merge of logs, what a core answers to steps, and a round of an actor.
mod actors;
mod lawful;
mod merges;
mod steps;
