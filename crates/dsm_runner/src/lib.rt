// Threads over one table.
#![tactic(auto)]

mod close;
pub mod drive;
pub mod gate;
mod open;
pub mod rule;
pub mod run;
pub mod shared;
pub mod view;
pub mod worker;
