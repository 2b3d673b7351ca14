// The texts that a run and a program are told in.
#![tactic(auto)]

mod counts;
mod ends;
mod outs;
mod pages;
mod races;
pub mod reporting;
pub mod summing;
mod traces;

pub use dsm_list::listing::shape_text;
