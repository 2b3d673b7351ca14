// One page, a node that sends it and another that maps it: why a mapped copy is fresh.
#![tactic(auto)]

pub mod laws;
