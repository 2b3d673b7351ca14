// All processors and all words: what a run is, and its running state.
#![tactic(auto)]

pub mod ran;
pub mod state;
