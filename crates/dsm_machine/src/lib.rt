// One processor as a machine: its next operation, and how an answer changes it.
#![tactic(auto)]

pub mod acquire;
pub mod any_phase;
pub mod closing;
pub mod fault;
pub mod machine;
pub mod outcome;
pub mod point;
pub mod release;
pub mod write;
