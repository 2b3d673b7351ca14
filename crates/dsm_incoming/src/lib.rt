// What a node gets from a page's home: the words that changed there, or the whole page.
#![tactic(auto)]

pub mod law;
pub mod merge;
pub mod overwrite;
