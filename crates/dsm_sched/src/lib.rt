// The schedules: whose event comes next.
#![tactic(auto)]

pub mod kind;
pub mod simulation;
