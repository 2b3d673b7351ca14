// What a processor does, sentence by sentence, as definitions, and the laws of one processor whatever it is given.
#![tactic(auto)]

pub mod counts;
pub mod head;
pub mod law;
pub mod limits;
