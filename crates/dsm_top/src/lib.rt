// The top call: from the words of the command line and the bytes of a program to the bytes of the answer.
#![tactic(auto)]

pub mod answering;
pub mod command_line;
pub mod laws;
pub mod planning;
pub mod plans;
pub mod reading;
pub mod refusal;
pub mod top;
