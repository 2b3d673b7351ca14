// A large program from a number.
#![tactic(auto)]

pub mod generating;
mod instructions;
pub mod numbers;
mod parts;
