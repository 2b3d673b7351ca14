// The law of what the processors of one node owe of one word.
#![tactic(auto)]

pub mod laws;
