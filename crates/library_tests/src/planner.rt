//! Single servings and whole sequences, the planner that tries all orders, the timelines of a signal, and a certificate's text in one
//! piece.
mod certificates;
mod lines;
mod planners;
mod seconds;
mod servings;
mod splices;
