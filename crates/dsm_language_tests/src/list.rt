use dsm_isa::code::Code;
use dsm_isa::instr::Instr;
use dsm_isa::program::Program;
use dsm_isa::reg::Reg;
use dsm_isa::shape::Shape;
use dsm_list::listing::{list, shape_text};
use std::alloc::Global;
use std::test::Fail;

// The program of 2 pages of 4 words, 3 locks, 2 barriers and 4 flags, with these parts.
fn program_of(alloc: Global, init: &[(u32, u64)], code: &[Instr]) -> Result<Program, Fail> {
    let shape = Shape::new(2, 4, 3, 2, 4).ok_or("shape")?;
    let code = Code::new(code.to_vec(alloc)?)?;
    Ok(Program::new(shape, init.to_vec(alloc)?, code).ok_or("program")?)
}

const SIZES: &str = ".pages 2\n.words 4\n.locks 3\n.barriers 2\n.flags 4\n";

// Whether the program's listing is the sizes and this.
fn lists_as(alloc: Global, program: &Program, behind: &str) -> Result<bool, Fail> {
    let wanted = format!(in alloc; "{SIZES}{behind}")?;
    let text = list(alloc, program).map_err(|_| "memory")?;
    Ok(text.as_slice() == wanted.as_bytes())
}

#[test]
fn jumps_are_listed_with_labels(rt: HostRuntime) -> Result<(), Fail> {
    let alloc = rt.alloc();
    let a = Reg::new(0).ok_or("r0")?;
    let b = Reg::new(15).ok_or("r15")?;
    let forward_and_back = [
        Instr::Li { d: a, k: 3 },
        Instr::Beq { a, b, to: 4 },
        Instr::Subi { d: a, a, k: 1 },
        Instr::Jmp { to: 1 },
        Instr::Bge { a: b, b: a, to: 6 },
        Instr::Halt,
    ];
    let program = program_of(
        alloc,
        &[(0, 5), (7, 18446744073709551615)],
        &forward_and_back,
    )?;
    assert_eq!(rt;
        lists_as(
            alloc,
            &program,
            ".init 0 5\n.init 7 18446744073709551615\nli r0 3\nl1:\nbeq r0 r15 l4\nsubi r0 r0 1\njmp l1\nl4:\nbge r15 r0 l6\nhalt\nl6:\n"
        )?,
        true
    );
    let to_itself = program_of(alloc, &[], &[Instr::Jmp { to: 0 }])?;
    assert_eq!(rt; lists_as(alloc, &to_itself, "l0:\njmp l0\n")?, true);
    Ok(())
}

// The registers r1, r2 and r10.
fn three() -> Result<(Reg, Reg, Reg), Fail> {
    let d = Reg::new(1).ok_or("r1")?;
    let a = Reg::new(2).ok_or("r2")?;
    let b = Reg::new(10).ok_or("r10")?;
    Ok((d, a, b))
}

#[test]
fn registers_are_listed_in_order(rt: HostRuntime) -> Result<(), Fail> {
    let alloc = rt.alloc();
    let (d, a, b) = three()?;
    let registers = [
        Instr::Li { d, k: 9 },
        Instr::Mov { d, a },
        Instr::Me { d },
        Instr::Procs { d },
        Instr::Add { d, a, b },
        Instr::Sub { d, a, b },
        Instr::Mul { d, a, b },
        Instr::Div { d, a, b },
        Instr::Rem { d, a, b },
        Instr::And { d, a, b },
        Instr::Or { d, a, b },
        Instr::Xor { d, a, b },
        Instr::Shl { d, a, b },
        Instr::Shr { d, a, b },
        Instr::Slt { d, a, b },
        Instr::Seq { d, a, b },
    ];
    let program = program_of(alloc, &[], &registers)?;
    assert_eq!(rt;
        lists_as(
            alloc,
            &program,
            "li r1 9\nmov r1 r2\nme r1\nprocs r1\nadd r1 r2 r10\nsub r1 r2 r10\nmul r1 r2 r10\ndiv r1 r2 r10\nrem r1 r2 r10\nand r1 r2 r10\nor r1 r2 r10\nxor r1 r2 r10\nshl r1 r2 r10\nshr r1 r2 r10\nslt r1 r2 r10\nseq r1 r2 r10\n"
        )?,
        true
    );
    Ok(())
}

#[test]
fn numbers_and_objects_are_listed_in_order(rt: HostRuntime) -> Result<(), Fail> {
    let alloc = rt.alloc();
    let (d, a, b) = three()?;
    let others = [
        Instr::Addi { d, a, k: 8 },
        Instr::Subi { d, a, k: 8 },
        Instr::Muli { d, a, k: 8 },
        Instr::Ld { d, a, k: 8 },
        Instr::St { s: d, a, k: 8 },
        Instr::Bne { a, b, to: 0 },
        Instr::Blt { a, b, to: 0 },
        Instr::Lock { l: 2 },
        Instr::Unlock { l: 2 },
        Instr::Bar { b: 1 },
        Instr::Set { f: 3 },
        Instr::Wait { f: 3, k: 6 },
        Instr::Waitr { f: 3, a },
        Instr::Out { s: d },
    ];
    let program = program_of(alloc, &[], &others)?;
    assert_eq!(rt;
        lists_as(
            alloc,
            &program,
            "l0:\naddi r1 r2 8\nsubi r1 r2 8\nmuli r1 r2 8\nld r1 r2 8\nst r1 r2 8\nbne r2 r10 l0\nblt r2 r10 l0\nlock 2\nunlock 2\nbar 1\nset 3\nwait 3 6\nwaitr 3 r2\nout r1\n"
        )?,
        true
    );
    Ok(())
}

#[test]
fn the_shape_is_one_line(rt: HostRuntime) -> Result<(), Fail> {
    let alloc = rt.alloc();
    let program = program_of(alloc, &[(1, 1)], &[Instr::Halt, Instr::Halt])?;
    let text = shape_text(alloc, &program).map_err(|_| "memory")?;
    assert_eq!(rt;
        text.as_slice(),
        b"program pages 2 words 4 locks 3 barriers 2 flags 4 code 2\n".as_slice()
    );
    Ok(())
}
