// Twins: the copies of pages against which nodes tell what they have written.
#![tactic(auto)]

pub mod drop;
pub mod has;
pub mod law;
pub mod make;
