// Tests of the language: its lines, programs, assembler and listing, generated programs and the sequential reader.
// They stand here because the gate proves a crate with tests twice.
#![tactic(auto)]

#[cfg(test)]
mod asm;
#[cfg(test)]
mod generated;
#[cfg(test)]
mod isa;
#[cfg(test)]
mod lex;
#[cfg(test)]
mod list;
#[cfg(test)]
mod local;
#[cfg(test)]
mod synchronisation;
