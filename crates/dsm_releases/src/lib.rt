// What a processor owes until it signals, over every list of loose events.
#![tactic(auto)]

pub mod laws;
