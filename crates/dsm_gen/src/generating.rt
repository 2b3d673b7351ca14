ghost use Rattle.std.specs.Prelude.{◌≡◌, None, IfOk};
ghost use Rattle.dsm_grammar.specs.Faults.{first_fault_of};
ghost use Rattle.dsm_gen.specs.Generated.{text_with, program_with, generated_text, generated};

use crate::numbers::{Numbers, numbers_of};
use crate::parts::{adding_up, filling, going_down, going_up};
use dsm_entry::entry::NoMemory;
use dsm_grammar::laws::program_law;
use dsm_isa::code::Code;
use dsm_isa::instr::Instr;
use dsm_isa::program::Program;
use dsm_isa::shape::Shape;
use std::alloc::Global;

/// The program of a seed: that of a text with five numbers, each of which is made of the next word of SplitMix64. It
/// uses all pages, and has no race.
pub fn generate(alloc: Global, seed: u64) -> Result<Program, NoMemory>
    ensures program { IfOk result (λ p. p ≡ generated seed) }
    ensures accepted { first_fault_of (generated_text seed) ≡ None }
{
    assembled(alloc, numbers_of(seed))
}

/// The program with these numbers.
fn assembled(alloc: Global, n: Numbers) -> Result<Program, NoMemory>
    ensures program { IfOk result (λ p. p ≡ program_with n) }
    ensures accepted { first_fault_of (text_with n) ≡ None }
{
    program_law();
    let list = instructions(alloc, n)?;
    let Ok(code) = Code::new(list) else {
        unreachable!()
    };
    let Some(shape) = Shape::new(256, 9, 1, 1, 0) else {
        unreachable!()
    };
    match Program::new(shape, Vec::new(alloc), code) {
        Some(program) => Ok(program),
        None => unreachable!(),
    }
}

/// Its instructions in order.
fn instructions(alloc: Global, n: Numbers) -> Result<Vec<Instr>, NoMemory>
    ensures { IfOk result (λ list. list.items ≡ (program_with n).code) }
{
    let mut list = Vec::new(alloc);
    list.extend_from_slice(&filling(n))?;
    list.extend_from_slice(&going_up(n))?;
    list.extend_from_slice(&going_down(n))?;
    list.extend_from_slice(&adding_up(n))?;
    Ok(list)
}
