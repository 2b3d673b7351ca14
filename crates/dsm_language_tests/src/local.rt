use dsm_entry::entry::{Entry, Obj};
use dsm_isa::code::Code;
use dsm_isa::instr::Instr;
use dsm_isa::program::Program;
use dsm_isa::shape::Shape;
use dsm_local::action::Action;
use dsm_local::end::{End, Trap};
use dsm_local::reader::Reader;
use dsm_local::run::is_run;
use dsm_local::setting::Setting;
use dsm_samples::entries::trace;
use dsm_samples::programs::register;
use std::alloc::Global;
use std::test::Fail;

/// What processor 2 of 3 does with an instruction, where r1 is x and r2 is y.
pub(crate) fn action(alloc: Global, instr: Instr, x: u64, y: u64) -> Result<Action, Fail> {
    let mut reader = Reader::new();
    reader.registers[1] = x;
    reader.registers[2] = y;
    let code = Code::new([instr].to_vec(alloc)?)?;
    let setting = Setting {
        size: 4,
        p: 2,
        procs: 3,
        turns: 1,
    };
    Ok(reader.next(&code, setting))
}

// Arithmetic at its edges: what r3 gets from r1 and r2.
#[test]
fn computes(rt: HostRuntime) -> Result<(), Fail> {
    let (a, b, d) = (register(1)?, register(2)?, register(3)?);
    let most = u64::MAX;
    let high = 9223372036854775808;
    let table = [
        (Instr::Add { d, a, b }, most, 1, 0),
        (Instr::Sub { d, a, b }, 0, 1, most),
        (Instr::Mul { d, a, b }, most, most, 1),
        (Instr::Div { d, a, b }, most, 2, 9223372036854775807),
        (Instr::Rem { d, a, b }, most, 10, 5),
        (Instr::And { d, a, b }, 12, 10, 8),
        (Instr::Or { d, a, b }, 12, 10, 14),
        (Instr::Xor { d, a, b }, 12, 10, 6),
        (Instr::Shl { d, a, b }, 3, 63, high),
        (Instr::Shl { d, a, b }, 3, 64, 3),
        (Instr::Shl { d, a, b }, 3, 65, 6),
        (Instr::Shr { d, a, b }, most, 63, 1),
        (Instr::Shr { d, a, b }, most, 64, most),
        (Instr::Shr { d, a, b }, 6, 65, 3),
        (Instr::Slt { d, a, b }, 1, most, 1),
        (Instr::Slt { d, a, b }, most, 1, 0),
        (Instr::Seq { d, a, b }, most, most, 1),
        (Instr::Addi { d, a, k: most }, 1, 0, 0),
        (Instr::Subi { d, a, k: most }, 0, 0, 1),
        (Instr::Muli { d, a, k: 3 }, high, 0, high),
        (Instr::Li { d, k: most }, 0, 0, most),
        (Instr::Mov { d, a }, 7, 0, 7),
        (Instr::Me { d }, 0, 0, 2),
        (Instr::Procs { d }, 0, 0, 3),
    ];
    for (instr, x, y, v) in table {
        assert_eq!(rt; action(rt.alloc(), instr, x, y)?, Action::Set { d, v });
    }
    Ok(())
}

// Jumps, where r1 is 5 and r2 is 2^64 - 1, and what can't be done.
#[test]
fn jumps_and_traps(rt: HostRuntime) -> Result<(), Fail> {
    let (z, a, b) = (register(0)?, register(1)?, register(2)?);
    let trap = |kind| Action::Trap { kind };
    let table = [
        (Instr::Jmp { to: 1 }, Action::Jump { to: 1 }),
        (Instr::Beq { a, b, to: 0 }, Action::Jump { to: 1 }),
        (Instr::Bne { a, b, to: 0 }, Action::Jump { to: 0 }),
        (Instr::Blt { a, b, to: 0 }, Action::Jump { to: 0 }),
        (Instr::Bge { a, b, to: 0 }, Action::Jump { to: 1 }),
        (Instr::Bge { a, b: a, to: 0 }, Action::Jump { to: 0 }),
        (Instr::Div { d: z, a, b: z }, trap(Trap::DivideByZero)),
        (Instr::Rem { d: z, a, b: z }, trap(Trap::DivideByZero)),
        (Instr::Ld { d: z, a, k: 0 }, trap(Trap::Address { w: 5 })),
        (
            Instr::Ld { d: z, a: b, k: 4 },
            Action::LoadWord { d: z, w: 3 },
        ),
        (Instr::St { s: a, a: z, k: 4 }, trap(Trap::Address { w: 4 })),
        (Instr::Halt, Action::Arrive),
    ];
    for (instr, does) in table {
        assert_eq!(rt; action(rt.alloc(), instr, 5, u64::MAX)?, does);
    }
    Ok(())
}

/// Whether these entries are the trace of the only processor of a memory of four words, with two locks, barriers
/// and flags.
pub(crate) fn answer(
    alloc: Global,
    list: &[Instr],
    turns: u64,
    entries: &[Entry],
    end: Option<End>,
) -> Result<bool, Fail> {
    let shape = Shape::new(1, 4, 2, 2, 2).ok_or("no shape")?;
    let code = Code::new(list.to_vec(alloc)?)?;
    let program = Program::new(shape, Vec::new(alloc), code).ok_or("no program")?;
    let trace = trace(alloc, entries)?;
    Ok(is_run(&program, 0, 1, turns, &trace, end))
}

/// Stores 5 to word 2, loads it and prints what it got.
fn through_memory() -> Result<[Instr; 4], Fail> {
    let (z, a, b) = (register(0)?, register(1)?, register(2)?);
    Ok([
        Instr::Li { d: a, k: 5 },
        Instr::St { s: a, a: z, k: 2 },
        Instr::Ld { d: b, a: z, k: 2 },
        Instr::Out { s: b },
    ])
}

/// What it does where the load gets 9.
fn its_trace() -> [Entry; 5] {
    let o = Obj::Close;
    [
        Entry::Store { w: 2, v: 5 },
        Entry::Load { w: 2, v: 9 },
        Entry::Out { v: 9 },
        Entry::Signal { o, j: 7 },
        Entry::Pass { o, c: 8 },
    ]
}

// Cut short, it has not ended, or had no memory; before the pass it may also have waited.
#[test]
fn follows_a_part(rt: HostRuntime) -> Result<(), Fail> {
    let alloc = rt.alloc();
    let code = through_memory()?;
    let right = its_trace();
    for n in 0..right.len() {
        let part = &right[..n];
        let table = [
            (None, true),
            (Some(End::NoMemory), true),
            (Some(End::Halted), false),
            (Some(End::Looked), n == 4),
            (Some(End::Stopped { by: 1 }), n == 4),
        ];
        for (end, holds) in table {
            assert_eq!(rt; answer(alloc, &code, 5, part, end)?, holds, "{n}");
        }
    }
    Ok(())
}

// One entry is another.
#[test]
fn refuses_another_entry(rt: HostRuntime) -> Result<(), Fail> {
    let alloc = rt.alloc();
    let code = through_memory()?;
    let right = its_trace();
    let (lock, barrier) = (Obj::Lock(0), Obj::Barrier(0));
    let wrong = [
        Entry::Store { w: 2, v: 6 },
        Entry::Load { w: 1, v: 9 },
        Entry::Out { v: 5 },
        Entry::Signal { o: lock, j: 7 },
        Entry::Pass { o: barrier, c: 8 },
    ];
    for n in 0..right.len() {
        let mut changed = right;
        changed[n] = wrong[n];
        assert!(rt;
            !answer(alloc, &code, 5, &changed, Some(End::Halted))?,
            "{n}"
        );
        assert!(rt; !answer(alloc, &code, 5, &changed, None)?, "{n}");
    }
    Ok(())
}

// The whole trace is four instructions and a halt; another end, and an entry too many.
#[test]
fn follows_a_whole_trace(rt: HostRuntime) -> Result<(), Fail> {
    let alloc = rt.alloc();
    let code = through_memory()?;
    let right = its_trace();
    assert!(rt; answer(alloc, &code, 5, &right, Some(End::Halted))?);
    assert!(rt; answer(alloc, &code, 5, &right, None)?);
    assert!(rt; !answer(alloc, &code, 4, &right, Some(End::Halted))?);
    assert!(rt; answer(alloc, &code, 4, &right[..3], Some(End::Spent))?);
    assert!(rt; !answer(alloc, &code, 5, &right[..3], Some(End::Spent))?);
    let kind = Trap::DivideByZero;
    let trapped = End::Trapped { at: 4, kind };
    for end in [End::Spent, End::Looked, End::Stopped { by: 1 }, trapped] {
        assert!(rt; !answer(alloc, &code, 5, &right, Some(end))?);
    }
    let [a, b, c, d, e] = right;
    let long = [a, b, c, d, e, e];
    assert!(rt; !answer(alloc, &code, 9, &long, Some(End::Halted))?);
    Ok(())
}

// A loop without an entry stops by the number of instructions.
#[test]
fn follows_no_entry(rt: HostRuntime) -> Result<(), Fail> {
    let alloc = rt.alloc();
    let spin = [Instr::Jmp { to: 0 }];
    assert!(rt; answer(alloc, &spin, 1000, &[], Some(End::Spent))?);
    assert!(rt; answer(alloc, &spin, 1000, &[], None)?);
    assert!(rt; !answer(alloc, &spin, 1000, &[], Some(End::Halted))?);
    assert!(rt; !answer(alloc, &spin, 1000, &[Entry::Out { v: 0 }], Some(End::Spent))?);
    Ok(())
}

// A trap is before its instruction, and names what can't be done.
#[test]
fn follows_to_a_trap(rt: HostRuntime) -> Result<(), Fail> {
    let alloc = rt.alloc();
    let z = register(0)?;
    let code = [Instr::Div { d: z, a: z, b: z }];
    let trapped = |at, kind| End::Trapped { at, kind };
    let zero = Trap::DivideByZero;
    let table = [
        (1, trapped(0, zero), true),
        (1, trapped(1, zero), false),
        (1, trapped(0, Trap::NotHeld { l: 0 }), false),
        (1, trapped(0, Trap::Address { w: 0 }), false),
        (0, trapped(0, zero), false),
        (0, End::Spent, true),
    ];
    for (turns, end, holds) in table {
        assert_eq!(rt; answer(alloc, &code, turns, &[], Some(end))?, holds);
    }
    Ok(())
}
