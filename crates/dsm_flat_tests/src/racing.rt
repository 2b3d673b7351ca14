// Which words race, as clocks tell.
ghost use Rattle.std.specs.Prelude.{◌<◌, ◌^◌, length};

use dsm_entry::entry::{Entry, NoMemory, Obj};
use dsm_entry::trace::Trace;
use dsm_flat::judge::judge;
use dsm_flat::verdict::Verdict;
use dsm_samples::entries::{load, pass, signal, store, trace};
use std::alloc::Global;
use std::test::Fail;

// Whether word 0 of these traces races, as `judge` says, which asks the clocks first.
fn races(alloc: Global, traces: &[Trace]) -> Result<bool, NoMemory>
    requires { length traces.now < 2 ^ 32 }
{
    Ok(judge(alloc, traces, 0)? != Verdict::Ordered)
}

// Two processors.
fn two(alloc: Global, first: &[Entry], second: &[Entry]) -> Result<bool, NoMemory> {
    races(alloc, &[trace(alloc, first)?, trace(alloc, second)?])
}

#[test]
fn a_lock_orders_where_its_pass_counts_the_signal(rt: HostRuntime) -> Result<(), Fail> {
    let alloc = rt.alloc();
    let l = Obj::Lock(3);
    let first = [
        pass(l, 0),
        store(0, 1),
        signal(l, 0),
        pass(l, 1),
        signal(l, 1),
    ];
    let behind = [pass(l, 1), load(0, 0), store(0, 1)];
    let too_few = [pass(l, 0), load(0, 0), load(2, 0)];
    assert_eq!(rt; two(alloc, &first, &behind)?, false);
    assert_eq!(rt; two(alloc, &first, &too_few)?, true);
    assert_eq!(rt; two(alloc, &behind, &first)?, false);
    Ok(())
}

#[test]
fn loads_alone_do_not_race(rt: HostRuntime) -> Result<(), Fail> {
    let alloc = rt.alloc();
    assert_eq!(rt;
        two(alloc, &[load(0, 0)], &[load(0, 0), load(0, 0)])?,
        false
    );
    assert_eq!(rt;
        two(alloc, &[load(0, 0)], &[load(0, 0), store(0, 1)])?,
        true
    );
    assert_eq!(rt; two(alloc, &[store(0, 1)], &[])?, false);
    assert_eq!(rt; races(alloc, &[])?, false);
    Ok(())
}

// A lock, a barrier and a flag lead from processor 3 to processor 0.
#[test]
fn a_chain_of_three_objects_orders(rt: HostRuntime) -> Result<(), Fail> {
    let alloc = rt.alloc();
    let (l, b, f) = (Obj::Lock(0), Obj::Barrier(1), Obj::Flag(2));
    for c in 4..6 {
        let traces = [
            trace(alloc, &[pass(f, c), load(0, 0)])?,
            trace(alloc, &[pass(b, 3), signal(f, 4)])?,
            trace(alloc, &[pass(l, 1), signal(b, 2)])?,
            trace(alloc, &[store(0, 1), signal(l, 0)])?,
        ];
        assert_eq!(rt; races(alloc, &traces)?, c == 4);
    }
    Ok(())
}

// Three processors meet at a barrier twice. The last store is behind the first round, or in it.
#[test]
fn a_round_counts_its_last_arrival(rt: HostRuntime) -> Result<(), Fail> {
    let alloc = rt.alloc();
    let b = Obj::Barrier(0);
    let (early, late) = (store(0, 1), load(0, 0));
    for behind in 0..2u64 {
        let traces = [
            trace(
                alloc,
                &[signal(b, 0), pass(b, 3 * behind), late, signal(b, 4)],
            )?,
            trace(alloc, &[signal(b, 1), pass(b, 3), signal(b, 3), pass(b, 6)])?,
            trace(
                alloc,
                &[early, signal(b, 2), pass(b, 3), signal(b, 5), pass(b, 6)],
            )?,
        ];
        assert_eq!(rt; races(alloc, &traces)?, behind == 0);
    }
    Ok(())
}

// Of three stores the first is before the others, which are not ordered.
#[test]
fn only_the_third_pair_races(rt: HostRuntime) -> Result<(), Fail> {
    let alloc = rt.alloc();
    let f = Obj::Flag(7);
    let traces = [
        trace(alloc, &[store(0, 1), signal(f, 0), signal(f, 1)])?,
        trace(alloc, &[pass(f, 1), store(0, 1), store(1, 1)])?,
        trace(alloc, &[pass(f, 2), load(0, 0)])?,
    ];
    assert_eq!(rt; races(alloc, &traces)?, true);
    Ok(())
}

// Numbers need not be those of a run: some stand twice, some are missing, and one is the greatest.
#[test]
fn any_numbers_are_told_apart(rt: HostRuntime) -> Result<(), Fail> {
    let alloc = rt.alloc();
    let f = Obj::Flag(0);
    let top = 18_446_744_073_709_551_615;
    let twice = [signal(f, 9), store(0, 1), signal(f, 9), signal(f, top)];
    assert_eq!(rt; two(alloc, &twice, &[pass(f, 9), load(0, 0)])?, true);
    assert_eq!(rt; two(alloc, &twice, &[pass(f, 10), load(0, 0)])?, false);
    assert_eq!(rt; two(alloc, &twice, &[pass(f, top), load(0, 0)])?, false);
    assert_eq!(rt;
        two(
            alloc,
            &[signal(f, top), store(0, 1)],
            &[pass(f, top), load(0, 0)]
        )?,
        true
    );
    Ok(())
}
