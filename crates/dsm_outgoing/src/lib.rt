// What a node sends to a page's home: the words that it changed.
#![tactic(auto)]

pub mod flush;
pub mod last;
pub mod law;
