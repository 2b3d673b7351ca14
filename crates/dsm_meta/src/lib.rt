// What holds of every state, over every list of events, and the state behind a schedule.
#![tactic(auto)]

pub mod after;
pub mod follow;
pub mod loose;
