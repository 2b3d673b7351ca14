// Registers, instructions and code.
#![tactic(auto)]

pub mod code;
pub mod instr;
pub mod program;
pub mod reg;
pub mod shape;
