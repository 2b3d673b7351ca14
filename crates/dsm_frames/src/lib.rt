// Accesses to the frames of a node, and the mappings of processors.
#![tactic(auto)]

pub mod access;
pub mod mapping;
