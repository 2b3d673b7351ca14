// One page on all nodes while they share it, claim it, have it alone and are broken: who may use it.
#![tactic(auto)]

pub mod laws;
