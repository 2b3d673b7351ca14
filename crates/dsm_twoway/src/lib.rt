// The headline: the memory of every cluster is flat.
#![tactic(auto)]

pub mod after;
pub mod after_start;
pub mod laws;
