use crate::local::{action, answer};
use dsm_entry::entry::{Entry, Obj};
use dsm_isa::instr::Instr;
use dsm_local::action::Action;
use dsm_local::end::{End, Trap};
use dsm_samples::programs::register;
use std::alloc::Global;
use std::test::Fail;

const TAKE: Instr = Instr::Lock { l: 1 };

const GIVE: Instr = Instr::Unlock { l: 1 };

const MEET: Instr = Instr::Bar { b: 1 };

const RAISE: Instr = Instr::Set { f: 1 };

const AWAIT: Instr = Instr::Wait { f: 1, k: 2 };

fn pass(o: Obj, c: u64) -> Entry {
    Entry::Pass { o, c }
}

fn signal(o: Obj, j: u64) -> Entry {
    Entry::Signal { o, j }
}

// What each instruction of synchronisation does, where r1 is 5 and no pass is open.
#[test]
fn does_synchronisation(rt: HostRuntime) -> Result<(), Fail> {
    let kind = Trap::NotHeld { l: 1 };
    let a = register(1)?;
    let table = [
        (TAKE, Action::TakeLock { l: 1 }),
        (GIVE, Action::Trap { kind }),
        (MEET, Action::Meet { b: 1 }),
        (RAISE, Action::RaiseFlag { f: 1 }),
        (AWAIT, Action::WaitFlag { f: 1, need: 2 }),
        (Instr::Waitr { f: 1, a }, Action::WaitFlag { f: 1, need: 5 }),
    ];
    for (instr, does) in table {
        assert_eq!(rt; action(rt.alloc(), instr, 5, 0)?, does);
    }
    Ok(())
}

/// Whether each part of this trace from its start is one of the code with the ends that it may have, and with no
/// other. `waits` says of each part whether the processor may wait behind it.
fn agrees(alloc: Global, code: &[Instr], trace: &[Entry], waits: &[bool]) -> Result<bool, Fail> {
    let mut agrees = waits.len() == trace.len() + 1;
    for n in 0..trace.len() + 1 {
        let part = &trace[..n];
        let wait = waits.get(n) == Some(&true);
        let ends = [
            (None, true),
            (Some(End::NoMemory), true),
            (Some(End::Halted), n == trace.len()),
            (Some(End::Looked), wait),
            (Some(End::Stopped { by: 3 }), wait),
            (Some(End::Spent), false),
        ];
        for (end, holds) in ends {
            agrees = agrees && answer(alloc, code, 9, part, end)? == holds;
        }
    }
    Ok(agrees)
}

// A processor may look too often, or see that another stopped, before the pass of a lock or of a flag.
#[test]
fn waits_for_locks_and_flags(rt: HostRuntime) -> Result<(), Fail> {
    let a = register(1)?;
    let (lock, flag) = (Obj::Lock(1), Obj::Flag(1));
    let (arrival, last) = (signal(Obj::Close, 4), pass(Obj::Close, 6));
    let (li, out, printed) = (
        Instr::Li { d: a, k: 2 },
        Instr::Out { s: a },
        Entry::Out { v: 2 },
    );
    let waitr = Instr::Waitr { f: 1, a };
    let table: [(&[Instr], &[Entry], &[bool]); 3] = [
        (
            &[TAKE, li, out, GIVE],
            &[pass(lock, 3), printed, signal(lock, 3), arrival, last],
            &[true, false, false, false, true, false],
        ),
        (
            &[AWAIT, out],
            &[pass(flag, 2), Entry::Out { v: 0 }, arrival, last],
            &[true, false, false, true, false],
        ),
        (
            &[out, li, waitr],
            &[Entry::Out { v: 0 }, pass(flag, 3), arrival, last],
            &[false, true, false, true, false],
        ),
    ];
    for (code, trace, waits) in table {
        assert!(rt; agrees(rt.alloc(), code, trace, waits)?);
    }
    Ok(())
}

// It may do so too before the pass of a barrier and of the closing one, and not before its signal.
#[test]
fn waits_at_barriers(rt: HostRuntime) -> Result<(), Fail> {
    let a = register(1)?;
    let (barrier, flag) = (Obj::Barrier(1), Obj::Flag(1));
    let (arrival, last) = (signal(Obj::Close, 4), pass(Obj::Close, 6));
    let (li, out, printed) = (
        Instr::Li { d: a, k: 2 },
        Instr::Out { s: a },
        Entry::Out { v: 2 },
    );
    let table: [(&[Instr], &[Entry], &[bool]); 3] = [
        (
            &[MEET, li, out],
            &[signal(barrier, 5), pass(barrier, 8), printed, arrival, last],
            &[false, true, false, false, true, false],
        ),
        (
            &[li, RAISE],
            &[signal(flag, 5), arrival, last],
            &[false, false, true, false],
        ),
        (
            &[Instr::Halt, TAKE],
            &[arrival, last],
            &[false, true, false],
        ),
    ];
    for (code, trace, waits) in table {
        assert!(rt; agrees(rt.alloc(), code, trace, waits)?);
    }
    Ok(())
}

// A lock is given back once, with the count of its open pass.
#[test]
fn gives_a_lock_back(rt: HostRuntime) -> Result<(), Fail> {
    let (zero, one) = (Obj::Lock(0), Obj::Lock(1));
    let (take, give) = (Instr::Lock { l: 0 }, Instr::Unlock { l: 0 });
    let table: [(&[Instr], &[Entry], bool); 12] = [
        (&[TAKE], &[pass(one, 3)], true),
        (&[TAKE], &[pass(zero, 3)], false),
        (&[TAKE], &[pass(Obj::Flag(1), 3)], false),
        (&[TAKE], &[signal(one, 3)], false),
        (&[TAKE, GIVE], &[pass(one, 3), signal(one, 4)], false),
        (&[TAKE, GIVE], &[pass(one, 3), signal(zero, 3)], false),
        (
            &[TAKE, GIVE, GIVE],
            &[pass(one, 3), signal(one, 3), signal(one, 3)],
            false,
        ),
        (
            &[TAKE, TAKE, GIVE],
            &[pass(one, 3), pass(one, 5), signal(one, 5)],
            true,
        ),
        (
            &[TAKE, TAKE, GIVE],
            &[pass(one, 3), pass(one, 5), signal(one, 3)],
            false,
        ),
        (
            &[take, TAKE, give, GIVE],
            &[pass(zero, 4), pass(one, 9), signal(zero, 4), signal(one, 9)],
            true,
        ),
        (
            &[take, TAKE, give, GIVE],
            &[pass(zero, 4), pass(one, 9), signal(zero, 9)],
            false,
        ),
        (&[give], &[signal(zero, 0)], false),
    ];
    for (code, trace, holds) in table {
        assert_eq!(rt; answer(rt.alloc(), code, 9, trace, None)?, holds);
    }
    Ok(())
}

// An unlock without an open pass of its lock is a trap, before that unlock.
#[test]
fn traps_without_a_pass(rt: HostRuntime) -> Result<(), Fail> {
    let one = Obj::Lock(1);
    let give = Instr::Unlock { l: 0 };
    let trapped = |at, kind| Some(End::Trapped { at, kind });
    let not_held = |l| Trap::NotHeld { l };
    let twice = [TAKE, GIVE, GIVE];
    let once = [pass(one, 3), signal(one, 3)];
    let table: [(&[Instr], &[Entry], Option<End>, bool); 7] = [
        (&twice, &once, trapped(2, not_held(1)), true),
        (&twice, &once, trapped(1, not_held(1)), false),
        (&twice, &once, trapped(2, not_held(0)), false),
        (&twice, &once, trapped(2, Trap::DivideByZero), false),
        (&twice, &once[..1], trapped(1, not_held(1)), false),
        (
            &[TAKE, give],
            &[pass(one, 3)],
            trapped(1, not_held(0)),
            true,
        ),
        (&[give], &[], trapped(0, not_held(0)), true),
    ];
    for (code, trace, end, holds) in table {
        assert_eq!(rt; answer(rt.alloc(), code, 9, trace, end)?, holds);
    }
    Ok(())
}

// A flag is passed with at least what is asked, by a number or by what the register holds at the beginning.
#[test]
fn passes_a_flag(rt: HostRuntime) -> Result<(), Fail> {
    let a = register(1)?;
    let (zero, one) = (Obj::Flag(0), Obj::Flag(1));
    let li = |k| Instr::Li { d: a, k };
    let waitr = Instr::Waitr { f: 1, a };
    let (out, nine) = (Instr::Out { s: a }, Entry::Out { v: 9 });
    let table: [(&[Instr], &[Entry], bool); 13] = [
        (&[AWAIT], &[pass(one, 1)], false),
        (&[AWAIT], &[pass(one, 2)], true),
        (&[AWAIT], &[pass(one, 3)], true),
        (&[AWAIT], &[pass(zero, 2)], false),
        (&[AWAIT], &[pass(Obj::Lock(1), 2)], false),
        (&[AWAIT], &[signal(one, 2)], false),
        (&[RAISE], &[signal(one, 7)], true),
        (&[RAISE], &[signal(zero, 7)], false),
        (&[RAISE], &[pass(one, 7)], false),
        (&[li(2), waitr, li(9), out], &[pass(one, 2), nine], true),
        (&[li(2), waitr, li(9), out], &[pass(one, 1), nine], false),
        (&[waitr, li(9), out], &[pass(one, 0), nine], true),
        (&[li(9), waitr, li(0)], &[pass(one, 8)], false),
    ];
    for (code, trace, holds) in table {
        assert_eq!(rt; answer(rt.alloc(), code, 9, trace, None)?, holds);
    }
    Ok(())
}

// At a barrier, and at the closing one, the pass comes directly behind the signal.
#[test]
fn meets_at_a_barrier(rt: HostRuntime) -> Result<(), Fail> {
    let (zero, one, close) = (Obj::Barrier(0), Obj::Barrier(1), Obj::Close);
    let (out, printed) = (Instr::Out { s: register(0)? }, Entry::Out { v: 0 });
    let code = [MEET, out];
    let table: [(&[Instr], &[Entry], bool); 11] = [
        (&code, &[signal(one, 5), pass(one, 8), printed], true),
        (&code, &[signal(one, 5), printed], false),
        (&code, &[pass(one, 8), printed], false),
        (&code, &[printed], false),
        (&code, &[signal(zero, 5)], false),
        (&code, &[signal(one, 5), pass(zero, 8)], false),
        (&code, &[signal(one, 5), pass(one, 8), pass(one, 8)], false),
        (
            &[Instr::Halt, out],
            &[signal(close, 1), pass(close, 2)],
            true,
        ),
        (&[Instr::Halt, out], &[pass(close, 2)], false),
        (&[Instr::Halt, out], &[signal(close, 1), printed], false),
        (&[Instr::Halt], &[signal(one, 1)], false),
    ];
    for (code, trace, holds) in table {
        assert_eq!(rt; answer(rt.alloc(), code, 9, trace, None)?, holds);
    }
    Ok(())
}

// Each is one instruction, which begins only where fewer are done than may be.
#[test]
fn counts_synchronisation(rt: HostRuntime) -> Result<(), Fail> {
    let (lock, barrier, flag) = (Obj::Lock(1), Obj::Barrier(1), Obj::Flag(1));
    let spent = Some(End::Spent);
    let table: [(&[Instr], u64, &[Entry], Option<End>, bool); 9] = [
        (&[TAKE], 0, &[], spent, true),
        (&[TAKE], 0, &[], Some(End::Looked), false),
        (&[TAKE, GIVE], 1, &[pass(lock, 3)], spent, true),
        (
            &[TAKE, GIVE],
            1,
            &[pass(lock, 3), signal(lock, 3)],
            None,
            false,
        ),
        (&[RAISE, AWAIT], 1, &[signal(flag, 3)], spent, true),
        (&[AWAIT, RAISE], 1, &[pass(flag, 3)], spent, true),
        (
            &[MEET, MEET],
            1,
            &[signal(barrier, 5), pass(barrier, 8)],
            spent,
            true,
        ),
        (&[MEET, MEET], 1, &[signal(barrier, 5)], spent, false),
        (
            &[MEET, MEET],
            1,
            &[signal(barrier, 5), pass(barrier, 8), signal(barrier, 9)],
            None,
            false,
        ),
    ];
    for (code, turns, trace, end, holds) in table {
        assert_eq!(rt; answer(rt.alloc(), code, turns, trace, end)?, holds);
    }
    Ok(())
}
