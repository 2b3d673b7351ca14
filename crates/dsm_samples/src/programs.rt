// Programs of few instructions, as tests write them.
ghost use Rattle.std.specs.Prelude.{◌≡◌, IfOk};
ghost use Rattle.dsm_isa.specs.ProgramText.{sizes_of};

use dsm_isa::code::Code;
use dsm_isa::instr::Instr;
use dsm_isa::program::Program;
use dsm_isa::reg::Reg;
use dsm_isa::shape::Shape;
use std::alloc::Global;
use std::test::Fail;

/// The program of these instructions, with these initial words. It fails where that is no program.
pub fn program(
    alloc: Global,
    shape: Shape,
    init: &[(u32, u64)],
    list: &[Instr],
) -> Result<Program, Fail>
    ensures shape { IfOk result (λ p. p.shape ≡ sizes_of shape) }
    ensures code { IfOk result (λ p. p.code ≡ list.now) }
{
    let code = Code::new(list.to_vec(alloc)?)?;
    Ok(Program::new(shape, init.to_vec(alloc)?, code).ok_or("no program")?)
}

/// Register `k`, from 0 to 15.
pub fn register(k: u32) -> Result<Reg, Fail>
    ensures { IfOk result (λ r. r ≡ k) }
{
    Ok(Reg::new(k).ok_or("no register")?)
}
