// What a run of many processors is, as definitions, and the laws over every list of events.
#![tactic(auto)]

pub mod laws;
