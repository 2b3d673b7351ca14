// What the judge says of a word.
use dsm_entry::entry::{Entry, NoMemory, Obj, Place};
use dsm_entry::trace::Trace;
use dsm_flat::judge::judge;
use dsm_flat::verdict::Verdict;
use dsm_samples::entries::{append, load, pass, signal, store, trace};
use std::alloc::Global;
use std::test::Fail;

fn raced(x: (u32, u64), y: (u32, u64)) -> Verdict {
    Verdict::Raced {
        x: Place { p: x.0, i: x.1 },
        y: Place { p: y.0, i: y.1 },
    }
}

// The verdict on word w by clocks, and by chains: then two processors more wait for each other, who touch no word.
fn two_ways(alloc: Global, w: u32, of: [&[Entry]; 4]) -> Result<(Verdict, Verdict), NoMemory> {
    let (a, b) = (Obj::Flag(100), Obj::Flag(101));
    let traces = [
        trace(alloc, of[0])?,
        trace(alloc, of[1])?,
        trace(alloc, of[2])?,
        trace(alloc, of[3])?,
    ];
    let circled = [
        trace(alloc, of[0])?,
        trace(alloc, of[1])?,
        trace(alloc, of[2])?,
        trace(alloc, of[3])?,
        trace(alloc, &[pass(a, 1), signal(b, 0)])?,
        trace(alloc, &[pass(b, 1), signal(a, 0)])?,
    ];
    Ok((judge(alloc, &traces, w)?, judge(alloc, &circled, w)?))
}

// Processor p of so many stores a word, meets the others at barrier 0, loads a word, prints and halts.
fn worker(
    alloc: Global,
    procs: u64,
    p: u64,
    stored: Entry,
    loaded: Entry,
) -> Result<Trace, NoMemory> {
    let o = Obj::Barrier(0);
    let list = [
        stored,
        signal(o, p),
        pass(o, procs),
        loaded,
        Entry::Out { v: 7 },
        signal(Obj::Close, p),
        pass(Obj::Close, procs),
    ];
    trace(alloc, &list)
}

#[test]
fn false_sharing_is_ordered(rt: HostRuntime) -> Result<(), Fail> {
    let alloc = rt.alloc();
    let traces = [
        worker(alloc, 4, 0, store(0, 100), load(1, 101))?,
        worker(alloc, 4, 1, store(1, 101), load(2, 102))?,
        worker(alloc, 4, 2, store(2, 102), load(3, 103))?,
        worker(alloc, 4, 3, store(3, 103), load(0, 100))?,
    ];
    assert_eq!(rt; judge(alloc, &traces, 0)?, Verdict::Ordered);
    assert_eq!(rt; judge(alloc, &traces, 3)?, Verdict::Ordered);
    Ok(())
}

#[test]
fn a_neighbour_races(rt: HostRuntime) -> Result<(), Fail> {
    let alloc = rt.alloc();
    let traces = [
        worker(alloc, 6, 0, store(0, 100), load(1, 101))?,
        worker(alloc, 6, 1, store(1, 101), load(2, 102))?,
        worker(alloc, 6, 2, store(2, 102), load(3, 103))?,
        worker(alloc, 6, 3, store(3, 103), load(0, 100))?,
        worker(alloc, 6, 4, store(4, 104), load(4, 105))?,
        worker(alloc, 6, 5, store(4, 105), load(4, 105))?,
    ];
    assert_eq!(rt; judge(alloc, &traces, 0)?, Verdict::Ordered);
    assert_eq!(rt; judge(alloc, &traces, 4)?, raced((4, 0), (5, 0)));
    assert_eq!(rt; judge(alloc, &traces, 5)?, Verdict::Ordered);
    Ok(())
}

// In a circle each entry is before each, and before itself.
#[test]
fn a_circle_orders_what_is_in_it(rt: HostRuntime) -> Result<(), Fail> {
    let alloc = rt.alloc();
    let (a, b) = (Obj::Flag(0), Obj::Flag(1));
    let first = [
        store(6, 1),
        pass(a, 1),
        store(7, 1),
        signal(b, 0),
        store(8, 1),
    ];
    let second = [
        store(8, 2),
        pass(b, 1),
        store(7, 2),
        signal(a, 0),
        store(6, 2),
    ];
    let traces = [trace(alloc, &first)?, trace(alloc, &second)?];
    assert_eq!(rt; judge(alloc, &traces, 6)?, Verdict::Ordered);
    assert_eq!(rt; judge(alloc, &traces, 7)?, Verdict::Ordered);
    assert_eq!(rt; judge(alloc, &traces, 8)?, Verdict::Ordered);
    Ok(())
}

#[test]
fn what_is_beside_a_circle_races(rt: HostRuntime) -> Result<(), Fail> {
    let alloc = rt.alloc();
    let (a, b) = (Obj::Flag(0), Obj::Flag(1));
    let first = [store(6, 1), pass(a, 1), signal(b, 0), store(7, 1)];
    let second = [store(6, 2), pass(b, 1), signal(a, 0), load(7, 1)];
    let traces = [trace(alloc, &first)?, trace(alloc, &second)?];
    assert_eq!(rt; judge(alloc, &traces, 6)?, raced((0, 0), (1, 0)));
    assert_eq!(rt; judge(alloc, &traces, 7)?, raced((0, 3), (1, 3)));
    Ok(())
}

#[test]
fn no_access_and_loads_alone_are_ordered(rt: HostRuntime) -> Result<(), Fail> {
    let alloc = rt.alloc();
    let none: [Trace; 0] = [];
    assert_eq!(rt; judge(alloc, &none, 0)?, Verdict::Ordered);
    let first = [load(3, 0)];
    let traces = [trace(alloc, &first)?, trace(alloc, &first)?];
    assert_eq!(rt; judge(alloc, &traces, 2)?, Verdict::Ordered);
    assert_eq!(rt; judge(alloc, &traces, 3)?, Verdict::Ordered);
    assert_eq!(rt;
        two_ways(alloc, 3, [&first, &first, &[load(3, 0), load(3, 0)], &[]])?,
        (Verdict::Ordered, Verdict::Ordered)
    );
    Ok(())
}

// From processor 3 a lock, a barrier and a flag lead to processor 0.
fn judged(alloc: Global, first: &[Entry], last: &[Entry]) -> Result<(Verdict, Verdict), NoMemory> {
    let (l, b, f) = (Obj::Lock(0), Obj::Barrier(0), Obj::Flag(0));
    let second = [pass(l, 1), signal(b, 2)];
    let third = [pass(b, 3), signal(f, 4)];
    two_ways(alloc, 1, [last, &third, &second, first])
}

#[test]
fn a_chain_orders_from_its_first_entry_on(rt: HostRuntime) -> Result<(), Fail> {
    let alloc = rt.alloc();
    let (l, f) = (Obj::Lock(0), Obj::Flag(0));
    let first = [store(1, 7), signal(l, 0)];
    let first_late = [signal(l, 0), store(1, 7)];
    let last = [pass(f, 4), pass(f, 5), load(1, 7)];
    let last_early = [pass(f, 4), load(1, 0), pass(f, 5)];
    let late = raced((0, 2), (3, 1));
    let early = raced((0, 1), (3, 0));
    assert_eq!(rt;
        judged(alloc, &first, &last)?,
        (Verdict::Ordered, Verdict::Ordered)
    );
    assert_eq!(rt; judged(alloc, &first_late, &last)?, (late, late));
    assert_eq!(rt; judged(alloc, &first, &last_early)?, (early, early));
    Ok(())
}

// The store stands between two signals of a flag, and the pass of the load counts both or the first alone.
#[test]
fn a_pass_may_count_one_signal_too_few(rt: HostRuntime) -> Result<(), Fail> {
    let alloc = rt.alloc();
    let f = Obj::Flag(0);
    let first = [signal(f, 0), store(0, 1), signal(f, 1)];
    let both = [pass(f, 2), load(0, 1)];
    let too_few = [pass(f, 1), load(0, 0)];
    let race = raced((0, 1), (1, 1));
    assert_eq!(rt;
        two_ways(alloc, 0, [&first, &both, &[], &[]])?,
        (Verdict::Ordered, Verdict::Ordered)
    );
    assert_eq!(rt;
        two_ways(alloc, 0, [&first, &too_few, &[], &[]])?,
        (race, race)
    );
    Ok(())
}

// Of three accesses the first is before the others, or behind them. These are not ordered.
#[test]
fn only_the_third_pair_races(rt: HostRuntime) -> Result<(), Fail> {
    let alloc = rt.alloc();
    let (f, g) = (Obj::Flag(0), Obj::Flag(1));
    let first = [store(0, 1), signal(f, 0)];
    let second = [pass(f, 1), store(0, 2)];
    let third = [pass(f, 1), load(0, 1)];
    let last = [pass(f, 1), pass(g, 1), store(0, 4)];
    let before = raced((1, 1), (2, 1));
    let behind = raced((2, 1), (3, 0));
    assert_eq!(rt;
        two_ways(alloc, 0, [&first, &second, &third, &[]])?,
        (before, before)
    );
    assert_eq!(rt;
        two_ways(
            alloc,
            0,
            [
                &last,
                &[],
                &[load(1, 0), load(0, 0), signal(f, 0)],
                &[store(0, 3), signal(g, 0)]
            ]
        )?,
        (behind, behind)
    );
    Ok(())
}

// One of four processors accesses word 0, and each takes and gives back a lock of its own five times;
// then all meet at a barrier.
fn round(traces: &mut [Trace; 4], r: u32) -> Result<(), NoMemory> {
    let (r, all) = (u64::from(r), Obj::Barrier(0));
    for p in 0..4u32 {
        let trace = &mut traces[p as usize];
        if r % 4 == u64::from(p) {
            append(trace, &[store(0, r)])?;
        }
        let own = Obj::Lock(p);
        for k in 0..5 {
            append(trace, &[pass(own, 5 * r + k), signal(own, 5 * r + k)])?;
        }
        append(
            trace,
            &[signal(all, 4 * r + u64::from(p)), pass(all, 4 * r + 4)],
        )?;
    }
    Ok(())
}

// 40 accesses among 1,960 entries, of which 960 are signals.
#[test]
fn many_accesses_are_ordered(rt: HostRuntime) -> Result<(), Fail> {
    let alloc = rt.alloc();
    let mut traces = [
        Trace::new(alloc),
        Trace::new(alloc),
        Trace::new(alloc),
        Trace::new(alloc),
    ];
    for r in 0..40 {
        round(&mut traces, r)?;
    }
    assert_eq!(rt; judge(alloc, &traces, 0)?, Verdict::Ordered);
    Ok(())
}

// Thirty-two processors add to word 0, each under lock 0 behind the one before it; then the last does so without the lock.
#[test]
fn thirty_two_traces(rt: HostRuntime) -> Result<(), Fail> {
    let alloc = rt.alloc();
    let o = Obj::Lock(0);
    let mut traces = Vec::new(alloc);
    for p in 0..31 {
        let list = [pass(o, p), load(0, p), store(0, p + 1), signal(o, p)];
        traces.push(trace(alloc, &list)?)?;
    }
    let locked = [pass(o, 31), load(0, 31), store(0, 32)];
    traces.push(trace(alloc, &locked)?)?;
    assert!(rt; traces.len() == 32);
    assert_eq!(rt; judge(alloc, traces.as_slice(), 0)?, Verdict::Ordered);
    let _ = traces.pop();
    traces.push(trace(alloc, &[load(0, 31), store(0, 32)])?)?;
    assert!(rt; traces.len() == 32);
    assert_eq!(rt; judge(alloc, traces.as_slice(), 0)?, raced((0, 1), (31, 1)));
    Ok(())
}
