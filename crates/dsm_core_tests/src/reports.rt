// The text that a run is told in.
ghost use Rattle.std.specs.Prelude.{◌≡◌, ◌<◌, ◌^◌, length};
ghost use Rattle.dsm_entry.specs.Told.{lists_of};
ghost use Rattle.dsm_flat.specs.Order.{NoCircle};
ghost use Rattle.dsm_flat.specs.Following.{AreShort};

use dsm_core::ran::Ran;
use dsm_entry::entry::{Entry, Obj};
use dsm_entry::trace::Trace;
use dsm_isa::instr::Instr;
use dsm_isa::shape::Shape;
use dsm_local::end::{End, Trap};
use dsm_protocol::counts::Counts;
use dsm_report::reporting::text;
use dsm_samples::entries::{load, pass, signal, store, trace};
use dsm_samples::programs::program;
use dsm_words::topology::Topology;
use std::alloc::Global;
use std::test::Fail;

/// Each count another number.
const ONE_TO_TWELVE: Counts = Counts {
    read_faults: 1,
    write_faults: 2,
    overwrites: 3,
    merges: 4,
    twins: 5,
    flushes: 6,
    early: 7,
    notices: 8,
    unmaps: 9,
    enters: 10,
    breaks: 11,
    unready: 12,
};

/// Their lines.
const COUNTED: &str =
    "count read_faults 1\ncount write_faults 2\ncount overwrites 3\ncount merges 4\ncount twins 5\ncount flushes 6\ncount early 7\ncount notices 8\ncount unmaps 9\ncount enters 10\ncount breaks 11\ncount unready 12\n";

// The report of a run whose memory is one page of `width` words and whose processors all ended so, with what each did.
fn reported(
    alloc: Global,
    t: Topology,
    traces: Vec<Trace>,
    end: End,
    width: u32,
    words: &[u64],
    traced: bool,
) -> Result<Vec<u8>, Fail>
    requires width { length words.now ≡ width }
    requires few { length traces.items < 2 ^ 32 }
    requires no_circle { NoCircle (lists_of traces.items) }
    requires short { AreShort (lists_of traces.items) }
{
    let shape = Shape::new(1, width, 0, 0, 0).ok_or("no shape")?;
    let program = program(alloc, shape, &[], &[Instr::Halt])?;
    let ran = Ran {
        ends: [Some(end)].repeat(alloc, traces.len())?,
        traces,
        pages: Vec::from_slice(alloc, words)?,
        counts: ONE_TO_TWELVE,
    };
    Ok(text(alloc, t, &program, &ran, traced)?)
}

// The report of a processor that is alone, did nothing and ended so.
fn reported_idle(alloc: Global, end: End) -> Result<Vec<u8>, Fail> {
    let traces = vec![in alloc; Trace::new(alloc)]?;
    let t = Topology::new(1, 1)?;
    reported(alloc, t, traces, end, 1, &[0], false)
}

// Only what was printed has lines, in order, and each word of the page is there.
#[test]
fn reports_what_was_printed(rt: HostRuntime) -> Result<(), Fail> {
    let entries = [load(2, 7), Entry::Out { v: 7 }, Entry::Out { v: u64::MAX }];
    let traces = vec![in rt.alloc(); trace(rt.alloc(), &entries)?]?;
    let t = Topology::new(1, 1)?;
    let got = reported(rt.alloc(), t, traces, End::Halted, 4, &[0, 0, 7, 0], false)?;
    let want = "cashmere 1x1\nend 0 halted\nout 0 7\nout 0 18446744073709551615\npage 0 0 0 7 0\n";
    assert!(rt; got.as_slice().strip_prefix(want.as_bytes()) == Some(COUNTED.as_bytes()));
    Ok(())
}

// The words for each other end. A trap is reported with the place of its instruction.
#[test]
fn reports_each_end(rt: HostRuntime) -> Result<(), Fail> {
    let trapped = |at, kind| End::Trapped { at, kind };
    let table = [
        (trapped(3, Trap::Address { w: 4 }), "trapped 3 address 4"),
        (trapped(0, Trap::DivideByZero), "trapped 0 zero"),
        (
            trapped(4095, Trap::NotHeld { l: 63 }),
            "trapped 4095 notheld 63",
        ),
        (End::Spent, "spent"),
        (End::Looked, "looked"),
        (End::Stopped { by: 31 }, "stopped by 31"),
        (End::NoMemory, "nomemory"),
    ];
    for (end, words) in table {
        let got = reported_idle(rt.alloc(), end)?;
        let want = format!(in rt.alloc(); "cashmere 1x1\nend 0 {words}\npage 0 0\n{COUNTED}")?;
        assert_eq!(rt; got.as_slice(), want.as_bytes());
    }
    Ok(())
}

// Each kind of entry, and signals of two kinds of object, behind the counts.
#[test]
fn reports_a_trace(rt: HostRuntime) -> Result<(), Fail> {
    let entries = [
        load(2, 7),
        store(3, u64::MAX),
        signal(Obj::Lock(63), 4),
        signal(Obj::Barrier(15), 6),
        Entry::Out { v: 8 },
    ];
    let traces = vec![in rt.alloc(); trace(rt.alloc(), &entries)?]?;
    let t = Topology::new(1, 1)?;
    let got = reported(rt.alloc(), t, traces, End::Halted, 1, &[0], true)?;
    let want = format!(in rt.alloc();
        "cashmere 1x1\nend 0 halted\nout 0 8\npage 0 0\n{COUNTED}t 0 load 2 7\nt 0 store 3 18446744073709551615\nt 0 signal lock 63 4\nt 0 signal barrier 15 6\nt 0 out 8\n"
    )?;
    assert_eq!(rt; got.as_slice(), want.as_bytes());
    Ok(())
}

// Passes of each kind of object.
#[test]
fn reports_passes(rt: HostRuntime) -> Result<(), Fail> {
    let entries = [
        pass(Obj::Lock(0), 5),
        pass(Obj::Barrier(3), 8),
        pass(Obj::Flag(9), 1),
        pass(Obj::Close, 2),
    ];
    let traces = vec![in rt.alloc(); trace(rt.alloc(), &entries)?]?;
    let t = Topology::new(1, 1)?;
    let got = reported(rt.alloc(), t, traces, End::Halted, 1, &[0], true)?;
    let want = format!(in rt.alloc();
        "cashmere 1x1\nend 0 halted\npage 0 0\n{COUNTED}t 0 pass lock 0 5\nt 0 pass barrier 3 8\nt 0 pass flag 9 1\nt 0 pass close 2\n"
    )?;
    assert_eq!(rt; got.as_slice(), want.as_bytes());
    Ok(())
}

// Both processors use word 1, and one of them stores to it; word 2 is only loaded, and each other word is of one processor alone.
#[test]
fn names_the_word_that_races(rt: HostRuntime) -> Result<(), Fail> {
    let alloc = rt.alloc();
    let first = [store(0, 5), load(1, 0), load(2, 0)];
    let second = [load(2, 0), store(1, 6), store(3, 7)];
    let traces = vec![in alloc; trace(alloc, &first)?, trace(alloc, &second)?]?;
    let t = Topology::new(1, 2)?;
    let got = reported(alloc, t, traces, End::Spent, 4, &[5, 6, 0, 7], false)?;
    let want = format!(in alloc;
        "cashmere 1x2\nend 0 spent\nend 1 spent\npage 0 5 6 0 7\nraced 1\n{COUNTED}"
    )?;
    assert_eq!(rt; got.as_slice(), want.as_bytes());
    Ok(())
}

// Here words 0 and 3 race, which stand before the counts, and the traces behind them.
#[test]
fn names_each_word_that_races(rt: HostRuntime) -> Result<(), Fail> {
    let alloc = rt.alloc();
    let first = [store(3, 7), load(1, 0), store(0, 5)];
    let second = [load(0, 0), store(2, 6), load(3, 0)];
    let traces = vec![in alloc; trace(alloc, &first)?, trace(alloc, &second)?]?;
    let t = Topology::new(2, 1)?;
    let got = reported(alloc, t, traces, End::Spent, 4, &[5, 0, 6, 7], true)?;
    let want = format!(in alloc;
        "cashmere 2x1\nend 0 spent\nend 1 spent\npage 0 5 0 6 7\nraced 0\nraced 3\n{COUNTED}t 0 store 3 7\nt 0 load 1 0\nt 0 store 0 5\nt 1 load 0 0\nt 1 store 2 6\nt 1 load 3 0\n"
    )?;
    assert_eq!(rt; got.as_slice(), want.as_bytes());
    Ok(())
}
