// What the crates of tests write their cases with.
#![tactic(auto)]

pub mod entries;
pub mod programs;
