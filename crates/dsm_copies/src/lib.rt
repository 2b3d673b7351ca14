// One word of a page while nodes flush, merge and break beside unlocked writers: why each load of it is right.
#![tactic(auto)]

pub mod laws;
