// Two small programs, and what their processors leave.
use dsm_core::ran::Ran;
use dsm_entry::entry::{Entry, Obj};
use dsm_isa::instr::Instr;
use dsm_samples::entries::{load, pass, signal, store};
use dsm_samples::programs::register;
use std::process::Abort;
use std::test::Fail;

/// Adds 1 to word 0 under lock 0, and halts.
pub(crate) fn adding() -> Result<[Instr; 6], Fail> {
    let a = register(2)?;
    let d = register(3)?;
    Ok([
        Instr::Lock { l: 0 },
        Instr::Ld { d, a, k: 0 },
        Instr::Addi { d, a: d, k: 1 },
        Instr::St { s: d, a, k: 0 },
        Instr::Unlock { l: 0 },
        Instr::Halt,
    ])
}

/// Stores 7 to word 2, loads it, prints it and halts. A processor that is alone does so in thirty events.
pub(crate) fn storing() -> Result<[Instr; 6], Fail> {
    let a = register(1)?;
    let b = register(2)?;
    let d = register(3)?;
    Ok([
        Instr::Li { d: a, k: 7 },
        Instr::Li { d: b, k: 2 },
        Instr::St { s: a, a: b, k: 0 },
        Instr::Ld { d, a: b, k: 0 },
        Instr::Out { s: d },
        Instr::Halt,
    ])
}

/// What a processor does that adds 1 to word 0 under lock 0, passed with count `c`, where the word was `v`, and that
/// halts as arrival `a`.
pub(crate) fn adds(c: u64, v: u64, a: u64) -> [Entry; 6] {
    let lock = Obj::Lock(0);
    [
        pass(lock, c),
        load(0, v),
        store(0, v.wrapping_add(1)),
        signal(lock, c),
        signal(Obj::Close, a),
        pass(Obj::Close, 2),
    ]
}

/// The trace of processor `p` in what was left.
pub(crate) fn has_trace(rt: &impl Abort, ran: &Ran, p: usize, entries: &[Entry]) {
    assert!(rt; p < ran.traces.len());
    assert_eq!(rt; ran.traces[p].len(), entries.len() as u64);
    for (i, entry) in entries.iter().enumerate() {
        assert_eq!(rt; ran.traces[p].get(i as u64), Some(*entry));
    }
}
