// Write notices: telling other nodes that a page was sent to its home, hearing of it, and knowing which copies are stale.
#![tactic(auto)]

pub mod drain;
pub mod law;
pub mod own;
pub mod post;
pub mod stale;
