use dsm_isa::code::{Code, CodeFault};
use dsm_isa::instr::Instr;
use dsm_isa::program::{Init, Program};
use dsm_isa::reg::Reg;
use dsm_isa::shape::Shape;
use std::alloc::Global;
use std::test::Fail;

#[test]
fn registers_are_0_to_15(rt: HostRuntime) -> Result<(), Fail> {
    assert_eq!(rt; Reg::new(15).ok_or("15")?.index(), 15);
    assert_eq!(rt; Reg::new(16), None);
    Ok(())
}

#[test]
fn codes_are_not_empty(rt: HostRuntime) -> Result<(), Fail> {
    let alloc = rt.alloc();
    assert_eq!(rt; Code::new(Vec::new(alloc)).err(), Some(CodeFault::Empty));
    let code = Code::new([Instr::Halt].to_vec(alloc)?)?;
    assert_eq!(rt; code.len(), 1);
    assert_eq!(rt; code.get(0), Some(Instr::Halt));
    Ok(())
}

#[test]
fn faults_are_told(rt: HostRuntime) -> Result<(), Fail> {
    let told = format!(in rt.alloc(); "{}, {}", CodeFault::Empty, CodeFault::TooLong)?;
    assert_eq!(rt;
        told.as_str(),
        "there is no instruction, there are more than 4096 instructions"
    );
    let told = format!(in rt.alloc(); "{}", CodeFault::BadJump(7))?;
    assert_eq!(rt;
        told.as_str(),
        "the jump at place 7 leads past the end of the code"
    );
    Ok(())
}

#[test]
fn jumps_lead_to_the_end_at_most(rt: HostRuntime) -> Result<(), Fail> {
    let alloc = rt.alloc();
    let a = Reg::new(1).ok_or("1")?;
    let code = Code::new([Instr::Halt, Instr::Jmp { to: 2 }].to_vec(alloc)?)?;
    assert_eq!(rt; code.get(1), Some(Instr::Jmp { to: 2 }));
    let past = [Instr::Halt, Instr::Beq { a, b: a, to: 3 }].to_vec(alloc)?;
    assert_eq!(rt; Code::new(past).err(), Some(CodeFault::BadJump(1)));
    let both = [Instr::Jmp { to: 9 }, Instr::Jmp { to: 8 }].to_vec(alloc)?;
    assert_eq!(rt; Code::new(both).err(), Some(CodeFault::BadJump(0)));
    Ok(())
}

#[test]
fn shapes_keep_their_limits(rt: HostRuntime) -> Result<(), Fail> {
    assert_eq!(rt; Shape::new(1, 1, 0, 0, 0).ok_or("least")?.pages, 1);
    assert_eq!(rt; Shape::new(256, 256, 64, 16, 64).ok_or("most")?.flags, 64);
    assert_eq!(rt; Shape::new(0, 1, 0, 0, 0), None);
    assert_eq!(rt; Shape::new(1, 0, 0, 0, 0), None);
    assert_eq!(rt; Shape::new(257, 1, 0, 0, 0), None);
    assert_eq!(rt; Shape::new(1, 257, 0, 0, 0), None);
    assert_eq!(rt; Shape::new(1, 1, 65, 0, 0), None);
    assert_eq!(rt; Shape::new(1, 1, 0, 17, 0), None);
    assert_eq!(rt; Shape::new(1, 1, 0, 0, 65), None);
    Ok(())
}

// Whether there is a program of 2 pages of 4 words, 3 locks, 1 barrier and 1 flag, with these initial
// words and this one instruction.
fn is_program(alloc: Global, init: &[(u32, u64)], instr: Instr) -> Result<bool, Fail> {
    let shape = Shape::new(2, 4, 3, 1, 1).ok_or("shape")?;
    let code = Code::new([instr].to_vec(alloc)?)?;
    Ok(Program::new(shape, init.to_vec(alloc)?, code).is_some())
}

#[test]
fn programs_keep_their_rules(rt: HostRuntime) -> Result<(), Fail> {
    let alloc = rt.alloc();
    assert_eq!(rt;
        is_program(alloc, &[(0, 5), (7, 9)], Instr::Lock { l: 2 })?,
        true
    );
    assert_eq!(rt; is_program(alloc, &[(3, 5), (1, 9)], Instr::Halt)?, false);
    assert_eq!(rt; is_program(alloc, &[(3, 5), (3, 9)], Instr::Halt)?, false);
    assert_eq!(rt; is_program(alloc, &[(3, 0)], Instr::Halt)?, false);
    assert_eq!(rt; is_program(alloc, &[(8, 5)], Instr::Halt)?, false);
    assert_eq!(rt; is_program(alloc, &[], Instr::Lock { l: 3 })?, false);
    assert_eq!(rt; is_program(alloc, &[], Instr::Bar { b: 1 })?, false);
    assert_eq!(rt; is_program(alloc, &[], Instr::Wait { f: 1, k: 0 })?, false);
    Ok(())
}

#[test]
fn programs_give_their_parts(rt: HostRuntime) -> Result<(), Fail> {
    let alloc = rt.alloc();
    let shape = Shape::new(2, 4, 3, 1, 1).ok_or("shape")?;
    let code = Code::new([Instr::Bar { b: 0 }, Instr::Halt].to_vec(alloc)?)?;
    let init = [(0, 5), (7, 9)].to_vec(alloc)?;
    let program = Program::new(shape, init, code).ok_or("program")?;
    assert_eq!(rt; program.shape(), shape);
    assert_eq!(rt; program.init(), [(0, 5), (7, 9)].as_slice());
    assert_eq!(rt; program.code().get(0), Some(Instr::Bar { b: 0 }));
    Ok(())
}

#[test]
fn initial_words_are_given_back(rt: HostRuntime) -> Result<(), Fail> {
    let init = Init::new([(2, 5)].to_vec(rt.alloc())?);
    assert_eq!(rt; init.as_slice(), [(2, 5)].as_slice());
    assert_eq!(rt; init.into_vec().as_slice(), [(2, 5)].as_slice());
    Ok(())
}
