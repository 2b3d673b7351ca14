// The order of what processors did, the synchronisation that it rests on, and memory as it sees it.
#![tactic(auto)]

mod accesses;
mod clock;
mod gate;
mod gates;
mod index;
pub mod judge;
mod latest;
pub mod laws;
mod links;
mod passes;
pub mod raced;
mod reach;
mod row;
mod shown;
pub mod verdict;
mod visits;
