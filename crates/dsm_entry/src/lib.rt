// Entries, traces and places: what a processor did, in order.
#![tactic(auto)]

pub mod entry;
pub mod trace;
