// The grammar of program texts, as definitions. The code is the two enums of what can be wrong with a text.
#![tactic(auto)]

pub mod fault;
pub mod laws;
