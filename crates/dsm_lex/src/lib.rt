// Lines, words, numbers and names of a text, by their places in it.
#![tactic(auto)]

pub mod laws;
pub mod lines;
mod scanning;
pub mod spans;
pub mod spelling;
pub mod splitting;
