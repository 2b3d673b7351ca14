// Whose event comes next, and where a run is cut.
use crate::adding::{adding, adds, has_trace};
use dsm_entry::entry::Obj;
use dsm_isa::instr::Instr;
use dsm_isa::shape::Shape;
use dsm_local::end::{End, Trap};
use dsm_protocol::limits::Limits;
use dsm_samples::entries::signal;
use dsm_samples::programs::{program, register};
use dsm_sched::kind::Kind;
use dsm_sched::simulation::{Simmed, sim};
use dsm_words::topology::Topology;
use std::alloc::Global;
use std::test::Fail;

/// What so many events leave of these instructions in this order, where each of so many processors of one node may do
/// ten. There is one page of one word, one lock and one flag.
fn simmed(
    alloc: Global,
    list: &[Instr],
    procs: u32,
    kind: Kind,
    steps: u64,
) -> Result<Simmed, Fail> {
    let shape = Shape::new(1, 1, 1, 0, 1).ok_or("no shape")?;
    let program = program(alloc, shape, &[], list)?;
    let t = Topology::new(1, procs)?;
    let limits = Limits {
        turns: 10,
        looks: Some(100),
    };
    Ok(sim(alloc, &program, t, limits, kind, steps)?)
}

// Two processors add 1 to a word under a lock. Processor 1 loses its exchange against processor 0, finds the lock held,
// and takes it once it is given back; processor 0 waits at the closing barrier until processor 1 arrives, which passes it
// first. Behind its own pass processor 0 has the closing work, which ends with event 120.
#[test]
fn makes_as_many_events_as_allowed(rt: HostRuntime) -> Result<(), Fail> {
    let list = adding()?;
    let halted = Some(End::Halted);
    let rows = [
        (0, true, None, None),
        (109, true, None, None),
        (110, true, None, halted),
        (119, true, None, halted),
        (120, false, halted, halted),
        (121, false, halted, halted),
    ];
    for (steps, cut, first, second) in rows {
        let left = simmed(rt.alloc(), &list, 2, Kind::Round, steps)?;
        assert_eq!(rt; left.cut, cut, "after {steps}");
        assert_eq!(rt;
            left.ran.ends.as_slice(),
            [first, second].as_slice(),
            "after {steps}"
        );
    }
    let left = simmed(rt.alloc(), &list, 2, Kind::Round, 120)?;
    has_trace(&rt, &left.ran, 0, &adds(0, 0, 0));
    has_trace(&rt, &left.ran, 1, &adds(1, 1, 1));
    assert_eq!(rt; left.ran.pages.as_slice(), [2].as_slice());
    assert_eq!(rt; left.ran.counts.unready, 25);
    Ok(())
}

// Three processors raise a flag, each signal with a number of its own: 0 to 2 in their order. Then processor 1 traps
// where the others raise it twice more, and behind its end come processor 2, 0, 2 and so on.
#[test]
fn goes_round(rt: HostRuntime) -> Result<(), Fail> {
    let a = register(1)?;
    let b = register(2)?;
    let list = [
        Instr::Set { f: 0 },
        Instr::Me { d: a },
        Instr::Li { d: b, k: 1 },
        Instr::Beq { a, b, to: 6 },
        Instr::Set { f: 0 },
        Instr::Set { f: 0 },
        Instr::Unlock { l: 0 },
    ];
    let flag = Obj::Flag(0);
    let trapped = Some(End::Trapped {
        at: 6,
        kind: Trap::NotHeld { l: 0 },
    });
    for (steps, cut, last) in [(32, true, None), (33, false, trapped)] {
        let left = simmed(rt.alloc(), &list, 3, Kind::Round, steps)?;
        assert_eq!(rt; left.cut, cut, "after {steps}");
        assert_eq!(rt;
            left.ran.ends.as_slice(),
            [trapped, trapped, last].as_slice(),
            "after {steps}"
        );
        has_trace(&rt, &left.ran, 0, &[0, 3, 5].map(|j| signal(flag, j)));
        has_trace(&rt, &left.ran, 1, &[signal(flag, 1)]);
        has_trace(&rt, &left.ran, 2, &[2, 4, 6].map(|j| signal(flag, j)));
    }
    Ok(())
}

// A processor that may do ten instructions is spent in its eleventh event.
#[test]
fn is_spent(rt: HostRuntime) -> Result<(), Fail> {
    for (steps, cut, end) in [(10, true, None), (11, false, Some(End::Spent))] {
        let left = simmed(rt.alloc(), &[Instr::Jmp { to: 0 }], 1, Kind::Round, steps)?;
        assert_eq!(rt; left.cut, cut, "after {steps}");
        assert_eq!(rt; left.ran.ends.as_slice(), [end].as_slice(), "after {steps}");
        has_trace(&rt, &left.ran, 0, &[]);
    }
    Ok(())
}

// Eight processors trap in their first event, so the seed's words tell in which order they end: each word draws one of
// those that are left.
#[test]
fn draws_who_comes_next(rt: HostRuntime) -> Result<(), Fail> {
    let trapped = Some(End::Trapped {
        at: 0,
        kind: Trap::NotHeld { l: 0 },
    });
    let rows = [
        (0, [7, 1, 2, 6, 5, 0, 4, 3]),
        (1, [1, 0, 2, 3, 5, 7, 6, 4]),
        (258, [4, 3, 5, 2, 1, 6, 7, 0]),
        (u64::MAX, [0, 2, 3, 5, 6, 4, 7, 1]),
    ];
    for (seed, order) in rows {
        let mut ends = [None; 8];
        for (i, p) in order.iter().enumerate() {
            let steps = i as u64;
            let left = simmed(
                rt.alloc(),
                &[Instr::Unlock { l: 0 }],
                8,
                Kind::Mixed { seed },
                steps,
            )?;
            assert_eq!(rt; left.cut, true, "seed {seed} after {steps}");
            assert_eq!(rt;
                left.ran.ends.as_slice(),
                ends.as_slice(),
                "seed {seed} after {steps}"
            );
            let p: usize = *p;
            assert!(rt; p < 8);
            ends[p] = trapped;
        }
        let left = simmed(
            rt.alloc(),
            &[Instr::Unlock { l: 0 }],
            8,
            Kind::Mixed { seed },
            8,
        )?;
        assert_eq!(rt; left.cut, false, "seed {seed}");
        assert_eq!(rt; left.ran.ends.as_slice(), ends.as_slice(), "seed {seed}");
    }
    Ok(())
}
