// The canonical text of a program, and the line of its sizes.
#![tactic(auto)]

mod instructions;
pub mod laws;
pub mod lines;
pub mod listing;
mod targets;
