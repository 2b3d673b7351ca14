// One processor that is given its answers: what it does, and how it may end.
#![tactic(auto)]

pub mod action;
pub mod end;
mod following;
pub mod reader;
pub mod run;
pub mod setting;
pub mod stand;
