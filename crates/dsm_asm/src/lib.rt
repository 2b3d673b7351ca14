// The assembler: the program that a text stands for, or its first fault. It goes over the text twice: for the labels, and
// for the rest.
#![tactic(auto)]

pub mod assembler;
mod assembly;
mod cutting;
pub mod fault;
mod forms;
mod instructions;
mod labelling;
mod labels;
mod operands;
mod said;
mod settings;
