ghost use Rattle.std.specs.Prelude.{◌≡◌, ◌<◌, ◌≤◌, ◌^◌, [], None, length, IfOk, IfErr, OnOk};
ghost use Rattle.dsm_isa.specs.Jumps.{JumpsInside};
ghost use Rattle.dsm_isa.specs.Rules.{IsInitial, ObjectsInside};
ghost use Rattle.dsm_lex.specs.Lexical.{lines_of};
ghost use Rattle.dsm_grammar.specs.Faults.{first_fault_of, first_fault_behind};
ghost use Rattle.dsm_grammar.specs.Grammar.{program_of, place_of};
ghost use Rattle.dsm_asm.specs.Assembled.{Refuses};
ghost use Rattle.dsm_asm.specs.Labelled.{Labelled};
ghost use Rattle.dsm_asm.specs.Past.{past_of};
ghost use Rattle.dsm_asm.specs.Table.{held};

use crate::assembly::Assembly;
use crate::cutting::first_line;
use crate::fault::{AsmErr, AsmFault, LineErr};
use crate::labelling::labels_of;
use crate::labels::Labels;
use dsm_grammar::fault::AsmKind;
use dsm_grammar::laws::program_law;
use dsm_isa::code::{Code, CodeFault};
use dsm_isa::program::Program;
use std::alloc::Global;

/// The program that a text stands for, or its first fault. Its work grows with the text's length, and the look-up of a
/// label with the logarithm of their number.
pub fn assemble(alloc: Global, text: &[u8]) -> Result<Program, AsmErr>
    requires { length text.now < 2 ^ 32 }
    // A program exactly where the text has no fault, and then the one that it stands for.
    ensures accepted { IfOk result (λ p. first_fault_of text.now ≡ None) }
    ensures program { IfOk result (λ p. p ≡ program_of text.now) }
    ensures fault { IfErr result (Refuses text.now) }
{
    let labels = labels_of(alloc, text)?;
    let assembly = take_lines(alloc, text, &labels)?;
    some_code(&assembly)?;
    program_law();
    finish(alloc, assembly)
}

/// What the lines of a text leave, whose labels these are, or its first fault.
fn take_lines(alloc: Global, text: &[u8], labels: &Labels) -> Result<Assembly, AsmErr>
    requires short { length text.now < 2 ^ 32 }
    requires labels { Labelled (lines_of text.now) (held labels.now) }
    ensures sound { IfOk result (λ a. first_fault_behind [] (lines_of text.now) ≡ None) }
    ensures all { IfOk result (λ a. a ≡ past_of (place_of (lines_of text.now)) (lines_of text.now)) }
    ensures fault { IfErr result (Refuses text.now) }
{
    let mut assembly = Assembly::new(alloc);
    let mut number: u32 = 0;
    let mut rest = text;
    while let Some((here, behind)) = first_line(rest) {
        match assembly.take(here, number, labels) {
            Ok(()) => {}
            Err(LineErr::Refused(kind)) => return refused(number + 1, kind),
            Err(LineErr::NoMemory) => return Err(AsmErr::NoMemory),
        }
        number += 1;
        rest = behind;
    }
    Ok(assembly)
}

/// Refuses what has no instruction.
fn some_code(assembly: &Assembly) -> Result<(), AsmFault>
    ensures some { OnOk result (0 < length assembly.now.code) }
    ensures fault { IfErr result (λ f. (length assembly.now.code ≡ 0) × (f ≡ record { line = 1; kind = AsmKind.NoCode })) }
{
    if assembly.code.is_empty() {
        return Err(AsmFault {
            line: 1,
            kind: AsmKind::NoCode,
        });
    }
    Ok(())
}

/// The program of what all lines have left.
fn finish(alloc: Global, assembly: Assembly) -> Result<Program, AsmErr>
    requires some { 0 < length assembly.code }
    requires most { length assembly.code ≤ 4096 }
    requires jumps { JumpsInside assembly.code }
    requires initial { IsInitial assembly.settings.sizes assembly.settings.init }
    requires objects { ObjectsInside assembly.settings.sizes assembly.code }
    ensures program { IfOk result (λ p. p ≡ record { shape = assembly.settings.sizes; init = assembly.settings.init; code = assembly.code }) }
    ensures fault { IfErr result (λ e. e ≡ AsmErr.NoMemory) }
{
    let shape = assembly.settings.shape();
    let init = assembly.settings.initial(alloc)?;
    let code = match Code::new(assembly.code) {
        Ok(code) => code,
        Err(CodeFault::Empty) => unreachable!(),
        Err(CodeFault::TooLong) => unreachable!(),
        Err(CodeFault::BadJump(_)) => unreachable!(),
    };
    match Program::new(shape, init, code) {
        Some(program) => Ok(program),
        None => unreachable!(),
    }
}

fn refused<T>(line: u32, kind: AsmKind) -> Result<T, AsmErr>
    ensures { result ≡ Err (AsmErr.Refused (record { line = line; kind = kind })) }
{
    Err(AsmErr::Refused(AsmFault { line, kind }))
}
