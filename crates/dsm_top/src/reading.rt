ghost use Rattle.std.specs.Prelude.{◌≡◌, ◌≢◌, Err, IfOk, IfErr};
ghost use Rattle.dsm_top.specs.Answer.{ReadsProgram, Takes, IsToGenerate, IsUnread};
ghost use Rattle.dsm_top.specs.Streams.{reading};

use crate::plans::Plan;
use dsm_asm::assembler::assemble;
use dsm_asm::fault::{AsmErr, AsmFault};
use dsm_gen::generating::generate;
use dsm_io::{ReadErr, Source, read_all};
use dsm_isa::program::Program;
use std::alloc::Global;

/// The most bytes of a program text.
pub const MOST_TEXT: usize = 65536;

/// Why no program was read.
#[derive(Clone, Copy, Debug, PartialEq, Eq)]
pub enum Unread {
    /// A read failed.
    Fault,
    /// The text has more than 65,536 bytes.
    TooLong,
    /// The text is refused for this fault.
    Refused(AsmFault),
    /// Memory was wanted and not got.
    NoMemory,
}

/// The program of a plan: for `gen` that of its seed, and nothing is then read, else the one whose text the source has.
pub fn take_program<S: Source>(alloc: Global, plan: Plan, source: &mut S) -> Result<Program, Unread>
    ensures program { IfOk result (Takes plan (reading S.left S.faults source.old source.new)) }
    ensures unread { IfErr result (IsUnread (reading S.left S.faults source.old source.new)) }
    ensures well { result ≢ Err Unread.Fault → S.faults source.new ≡ S.faults source.old }
    ensures left { IsToGenerate plan → source.new ≡ source.old }
    ensures memory { IsToGenerate plan → IfErr result (λ e. e ≡ Unread.NoMemory) }
{
    let Plan::Gen { seed, .. } = plan else {
        return read_program(alloc, source);
    };
    match generate(alloc, seed) {
        Ok(program) => Ok(program),
        Err(_) => Err(Unread::NoMemory),
    }
}

/// The program whose text the source has to its end.
pub fn read_program<S: Source>(alloc: Global, source: &mut S) -> Result<Program, Unread>
    ensures program { IfOk result (ReadsProgram (reading S.left S.faults source.old source.new)) }
    ensures unread { IfErr result (IsUnread (reading S.left S.faults source.old source.new)) }
    ensures well { result ≢ Err Unread.Fault → S.faults source.new ≡ S.faults source.old }
{
    let text = match read_all(alloc, source, MOST_TEXT) {
        Ok(text) => text,
        Err(ReadErr::Fault) => return Err(Unread::Fault),
        Err(ReadErr::TooLong) => return Err(Unread::TooLong),
        Err(ReadErr::NoMemory) => return Err(Unread::NoMemory),
    };
    match assemble(alloc, text.as_slice()) {
        Ok(program) => Ok(program),
        Err(AsmErr::Refused(fault)) => Err(Unread::Refused(fault)),
        Err(AsmErr::NoMemory) => Err(Unread::NoMemory),
    }
}
