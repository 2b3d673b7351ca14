// What the table of the protocol says of every cluster, over every list of loose events.
#![tactic(auto)]

pub mod laws;
