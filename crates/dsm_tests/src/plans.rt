// Which words ask for a plan, and which word is the first faulty one.
use crate::asking::line;
use dsm_protocol::limits::Limits;
use dsm_sched::kind::Kind;
use dsm_top::planning::{needs_threads, plan};
use dsm_top::plans::Plan;
use dsm_words::topology::Topology;
use std::test::Fail;

/// What some words ask for.
#[derive(Clone, Copy)]
enum Wanted {
    Check,
    List,
    /// `sim` on so many nodes of so many processors each, with these turns, looks and steps.
    Sim(u32, u32, u64, u64, u64),
    /// `sim` on so many nodes of so many processors each, with its trace and all else by default.
    Traced(u32, u32),
    /// `sim` on so many nodes of so many processors each, in the order that this seed draws, with all else by default.
    Mixed(u32, u32, u64),
    /// `run` on so many nodes of so many processors each, with these turns, and with its trace or not.
    Run(u32, u32, u64, bool),
    /// `gen` of this seed on so many nodes of so many processors each, with these turns, looks and steps.
    Gen(u64, u32, u32, u64, u64, u64),
    /// The same by threads, with these turns and steps.
    Threads(u64, u32, u32, u64, u64),
    /// The number of the first faulty word.
    Fault(u64),
}

use Wanted::{Check, Fault, Gen, List, Mixed, Run, Sim, Threads, Traced};

const ROWS: &[(&[&str], Wanted)] = &[
    (&["check"], Check),
    (&["list"], List),
    (&["sim", "1x1"], Sim(1, 1, 200_000, 50_000_000, 100_000_000)),
    (&["sim", "1x8"], Sim(1, 8, 200_000, 50_000_000, 100_000_000)),
    (&["sim", "8x1"], Sim(8, 1, 200_000, 50_000_000, 100_000_000)),
    (&["sim", "8x4"], Sim(8, 4, 200_000, 50_000_000, 100_000_000)),
    (&["sim", "4x8"], Sim(4, 8, 200_000, 50_000_000, 100_000_000)),
    (&["sim", "5x6"], Sim(5, 6, 200_000, 50_000_000, 100_000_000)),
    (
        &["sim", "1x4", "kind=round", "turns=5", "looks=6", "steps=7"],
        Sim(1, 4, 5, 6, 7),
    ),
    (
        &["sim", "2x3", "steps=7", "turns=5"],
        Sim(2, 3, 5, 50_000_000, 7),
    ),
    (
        &[
            "sim",
            "1x2",
            "steps=1000000000000",
            "looks=1000000000",
            "turns=1000000",
            "kind=round",
        ],
        Sim(1, 2, 1_000_000, 1_000_000_000, 1_000_000_000_000),
    ),
    (
        &["sim", "1x3", "looks=1"],
        Sim(1, 3, 200_000, 1, 100_000_000),
    ),
    (&[], Fault(1)),
    (&["trace"], Fault(1)),
    (&["sim 1x1"], Fault(1)),
    (&["check", "x"], Fault(2)),
    (&["list", "list"], Fault(2)),
    (&["sim"], Fault(2)),
    (&["sim", "9x1"], Fault(2)),
    (&["sim", "0x1"], Fault(2)),
    (&["sim", "0x9"], Fault(2)),
    (&["sim", "9x0"], Fault(2)),
    (&["sim", "8x5"], Fault(2)),
    (&["sim", "5x7"], Fault(2)),
    (&["sim", "6x6"], Fault(2)),
    (&["sim", "8x8"], Fault(2)),
    (&["sim", "3x11"], Fault(2)),
    (&["sim", "33x1"], Fault(2)),
    (&["sim", "1x9"], Fault(2)),
    (&["sim", "1x0"], Fault(2)),
    (&["sim", "01x1"], Fault(2)),
    (&["sim", "1x01"], Fault(2)),
    (&["sim", "1x"], Fault(2)),
    (&["sim", "x1"], Fault(2)),
    (&["sim", "x"], Fault(2)),
    (&["sim", "11"], Fault(2)),
    (&["sim", "1x1x1"], Fault(2)),
    (&["sim", "2xx2"], Fault(2)),
    (&["sim", "1X1"], Fault(2)),
    (&["sim", "+1x1"], Fault(2)),
    (&["sim", "2x-2"], Fault(2)),
    (&["sim", "2x 2"], Fault(2)),
    (&["sim", "02x2"], Fault(2)),
    (&["sim", "2x02"], Fault(2)),
    (&["sim", "1x4294967297"], Fault(2)),
    (&["sim", "4294967297x1"], Fault(2)),
    (&["sim", "18446744073709551617x1"], Fault(2)),
    (&["sim", "2", "x", "2"], Fault(2)),
    (&["sim", "turns=5", "1x1"], Fault(2)),
    (&["sim", "1x1", "turns=5", "turns=5"], Fault(4)),
    (
        &["sim", "1x1", "kind=round", "turns=5", "kind=round"],
        Fault(5),
    ),
    (&["sim", "1x1", "looks=1", "looks=2"], Fault(4)),
    (
        &["sim", "1x1", "steps=1", "looks=2", "steps=1", "x"],
        Fault(5),
    ),
    (&["sim", "1x1", "turns=0"], Fault(3)),
    (&["sim", "8x4", "turns=0"], Fault(3)),
    (&["sim", "2x2", "2x2"], Fault(3)),
    (&["sim", "1x1", "turns=1000001"], Fault(3)),
    (&["sim", "1x1", "turns=05"], Fault(3)),
    (&["sim", "1x1", "turns="], Fault(3)),
    (&["sim", "1x1", "turns"], Fault(3)),
    (&["sim", "1x1", "turns=18446744073709551617"], Fault(3)),
    (&["sim", "1x1", "looks=0"], Fault(3)),
    (&["sim", "1x1", "looks=1000000001"], Fault(3)),
    (&["sim", "1x1", "steps=0"], Fault(3)),
    (&["sim", "1x1", "steps=1000000000001"], Fault(3)),
    (&["sim", "1x1", "trace"], Traced(1, 1)),
    (&["sim", "2x2", "trace", "turns=200000"], Traced(2, 2)),
    (&["sim", "1x1", "trace", "trace"], Fault(4)),
    (&["sim", "1x1", "trace="], Fault(3)),
    (&["sim", "1x1", "trace=1"], Fault(3)),
    (&["sim", "1x1", "kind=mixed"], Mixed(1, 1, 0)),
    (&["sim", "6x1", "kind=mixed", "seed=3"], Mixed(6, 1, 3)),
    (&["sim", "2x3", "seed=0", "kind=mixed"], Mixed(2, 3, 0)),
    (
        &["sim", "4x4", "seed=18446744073709551615", "kind=mixed"],
        Mixed(4, 4, 18_446_744_073_709_551_615),
    ),
    (
        &["sim", "1x1", "seed=1"],
        Sim(1, 1, 200_000, 50_000_000, 100_000_000),
    ),
    (
        &["sim", "1x1", "seed=1", "turns=5", "kind=round"],
        Sim(1, 1, 5, 50_000_000, 100_000_000),
    ),
    (&["sim", "1x1", "seed=1", "seed=1"], Fault(4)),
    (&["sim", "1x1", "seed=1", "kind=mixed", "seed=2"], Fault(5)),
    (&["sim", "1x1", "kind=mixed", "kind=mixed"], Fault(4)),
    (&["sim", "1x1", "kind=mixed", "kind=round"], Fault(4)),
    (&["sim", "1x1", "seed=18446744073709551616"], Fault(3)),
    (&["sim", "1x1", "seed=01"], Fault(3)),
    (&["sim", "1x1", "seed=-1"], Fault(3)),
    (&["sim", "1x1", "seed="], Fault(3)),
    (&["sim", "1x1", "seed"], Fault(3)),
    (&["sim", "1x1", "kind="], Fault(3)),
    (&["sim", "1x1", "kind"], Fault(3)),
    (&["sim", "1x1", "kind=mix"], Fault(3)),
    (&["sim", "1x1", "kind=mixed3"], Fault(3)),
    (&["sim", "seed=1", "1x1"], Fault(2)),
    (&["sim", "1x1", "1x1"], Fault(3)),
    (&["sim", "1x1", ""], Fault(3)),
    (
        &["gen", "seed=1", "4x8"],
        Gen(1, 4, 8, 200_000, 50_000_000, 100_000_000),
    ),
    (
        &[
            "gen",
            "seed=18446744073709551615",
            "1x1",
            "steps=7",
            "turns=5",
            "looks=6",
        ],
        Gen(18_446_744_073_709_551_615, 1, 1, 5, 6, 7),
    ),
    (&["gen"], Fault(2)),
    (&["gen", "1x1", "seed=1"], Fault(2)),
    (&["gen", "seed=01", "1x1"], Fault(2)),
    (&["gen", "seed=18446744073709551616", "1x1"], Fault(2)),
    (&["gen", "seed=1"], Fault(3)),
    (&["gen", "seed=1", "seed=1"], Fault(3)),
    (&["gen", "seed=1", "8x5"], Fault(3)),
    (&["gen", "seed=1", "1x1", "trace"], Fault(4)),
    (&["gen", "seed=1", "1x1", "kind=round"], Fault(4)),
    (&["gen", "seed=1", "1x1", "seed=1"], Fault(4)),
    (&["gen", "seed=1", "1x1", "turns=5", "turns=5"], Fault(5)),
    (&["gen", "seed=1", "1x1", "steps=0"], Fault(4)),
];

/// Words with threads, or that are refused for what they say of them, and some without.
const THREADED: &[(&[&str], Wanted)] = &[
    (&["run", "1x1"], Run(1, 1, 200_000, false)),
    (&["run", "8x4", "trace"], Run(8, 4, 200_000, true)),
    (&["run", "4x8", "turns=5"], Run(4, 8, 5, false)),
    (
        &["run", "2x3", "trace", "turns=1000000"],
        Run(2, 3, 1_000_000, true),
    ),
    (&["run"], Fault(2)),
    (&["run", "8x5"], Fault(2)),
    (&["run", "1X1"], Fault(2)),
    (&["run", "turns=5", "1x1"], Fault(2)),
    (&["run", "seed=1", "1x1"], Fault(2)),
    (&["run", "1x1", "looks=5"], Fault(3)),
    (&["run", "1x1", "steps=5"], Fault(3)),
    (&["run", "1x1", "kind=round"], Fault(3)),
    (&["run", "1x1", "seed=1"], Fault(3)),
    (&["run", "1x1", "threads"], Fault(3)),
    (&["run", "1x1", "turns=0"], Fault(3)),
    (&["run", "1x1", "turns=1000001"], Fault(3)),
    (&["run", "1x1", "1x1"], Fault(3)),
    (&["run", "1x1", "turns=5", "turns=5"], Fault(4)),
    (&["run", "1x1", "trace", "turns=5", "trace"], Fault(5)),
    (&["run", "1x1", "trace", "looks=5"], Fault(4)),
    (&["sim", "1x1", "threads"], Fault(3)),
    (
        &["gen", "seed=1", "4x8", "threads"],
        Threads(1, 4, 8, 200_000, 100_000_000),
    ),
    (
        &[
            "gen", "seed=0", "1x1", "looks=6", "threads", "steps=7", "turns=5",
        ],
        Threads(0, 1, 1, 5, 7),
    ),
    (&["gen", "seed=1", "1x1", "threads", "threads"], Fault(5)),
    (&["gen", "seed=1", "1x1", "threads", "looks=0"], Fault(5)),
    (&["gen", "seed=1", "1x1", "threads", "trace"], Fault(5)),
    (&["gen", "seed=1", "1x1", "threads="], Fault(4)),
    (&["gen", "seed=1", "1x1", "threads=1"], Fault(4)),
    (&["gen", "seed=1", "threads", "1x1"], Fault(3)),
    (&["check"], Check),
    (&["list"], List),
    (&["sim", "1x1", "trace"], Traced(1, 1)),
    (
        &["gen", "seed=0", "1x1", "looks=6", "steps=7", "turns=5"],
        Gen(0, 1, 1, 5, 6, 7),
    ),
];

/// So many nodes of so many processors each.
fn of(nodes: u32, procs: u32) -> Result<Topology, Fail> {
    Ok(Topology::new(nodes, procs).ok().ok_or("no such cluster")?)
}

/// The plan of `sim` on so many nodes of so many processors each.
fn simulation(
    nodes: u32,
    procs: u32,
    limits: Limits,
    kind: Kind,
    steps: u64,
    trace: bool,
) -> Result<Plan, Fail> {
    Ok(Plan::Sim {
        t: of(nodes, procs)?,
        limits,
        kind,
        steps,
        trace,
    })
}

/// The answer that a row wants.
fn answer(wanted: Wanted) -> Result<Result<Plan, u64>, Fail> {
    let limits = |turns, looks| Limits {
        turns,
        looks: Some(looks),
    };
    Ok(match wanted {
        Check => Ok(Plan::Check),
        List => Ok(Plan::List),
        Sim(nodes, procs, turns, looks, steps) => Ok(simulation(
            nodes,
            procs,
            limits(turns, looks),
            Kind::Round,
            steps,
            false,
        )?),
        Traced(nodes, procs) => Ok(simulation(
            nodes,
            procs,
            limits(200_000, 50_000_000),
            Kind::Round,
            100_000_000,
            true,
        )?),
        Mixed(nodes, procs, seed) => Ok(simulation(
            nodes,
            procs,
            limits(200_000, 50_000_000),
            Kind::Mixed { seed },
            100_000_000,
            false,
        )?),
        Run(nodes, procs, turns, trace) => Ok(Plan::Run {
            t: of(nodes, procs)?,
            limits: Limits { turns, looks: None },
            trace,
        }),
        Gen(seed, nodes, procs, turns, looks, steps) => Ok(Plan::Gen {
            seed,
            t: of(nodes, procs)?,
            limits: limits(turns, looks),
            steps,
            threads: false,
        }),
        Threads(seed, nodes, procs, turns, steps) => Ok(Plan::Gen {
            seed,
            t: of(nodes, procs)?,
            limits: Limits { turns, looks: None },
            steps,
            threads: true,
        }),
        Fault(k) => Err(k),
    })
}

#[test]
fn plans(rt: HostRuntime) -> Result<(), Fail> {
    for (words, wanted) in ROWS {
        let line = line(rt.alloc(), words)?;
        assert_eq!(rt; plan(line.as_slice()), answer(*wanted)?, "{words:?}");
    }
    Ok(())
}

// `run` needs threads, and so does `gen` where `threads` is given.
#[test]
fn plans_threads(rt: HostRuntime) -> Result<(), Fail> {
    for (words, wanted) in THREADED {
        let line = line(rt.alloc(), words)?;
        assert_eq!(rt; plan(line.as_slice()), answer(*wanted)?, "{words:?}");
        let told = matches!(wanted, Run(..) | Threads(..));
        assert_eq!(rt; needs_threads(line.as_slice()), told, "{words:?}");
    }
    Ok(())
}
