// That a mapped copy of a page is fresh, over every list of loose events.
#![tactic(auto)]

pub mod laws;
