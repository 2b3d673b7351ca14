// What programs leave that are run by threads. What is wanted follows from the programs alone, since the words that they print are
// ordered, so that it is the same in whatever order the threads come.
use crate::asking::{Row, halted, line, sink, uncounted};
use crate::texts::{
    AGAIN, ALONE, BACK, BESIDE, COALESCED, COUNTER, FIRST, FIRST_REPORT, GRID, NEIGHBOURS, PRODUCER,
};
use dsm_io::MemSource;
use dsm_runner::gate::{Gate, OpenGate};
use dsm_top::top::{Done, top};
use std::sync::Wait;
use std::test::Fail;
use std::thread::Threads;

/// Runs by threads, and words that need none.
const THREADED: &[Row] = &[
    (&["run", "1x1"], FIRST, 0, FIRST_REPORT),
    (&["run", "1x1", "looks=5"], FIRST, 2, "refused word 3\n"),
    (
        &["run", "1x1", "turns=2"],
        FIRST,
        1,
        "cashmere 1x1\nend 0 spent\npage 0 0 0 0 0\n",
    ),
    (&["run", "1x1"], b"foo", 3, "refused line 1 UnknownWord\n"),
    (
        &["check"],
        FIRST,
        0,
        "program pages 1 words 4 locks 0 barriers 0 flags 0 code 6\n",
    ),
    (&["sim", "1x1"], FIRST, 0, FIRST_REPORT),
    (
        &["run", "2x2"],
        COUNTER,
        0,
        "cashmere 2x2\nend 0 halted\nend 1 halted\nend 2 halted\nend 3 halted\nout 0 400\npage 0 400 0 0 0\n",
    ),
    (
        &["run", "2x2"],
        NEIGHBOURS,
        0,
        "cashmere 2x2\nend 0 halted\nend 1 halted\nend 2 halted\nend 3 halted\nout 0 101\nout 1 102\nout 2 103\nout 3 100\npage 0 100 101 102 103 0 0 0 0\n",
    ),
    (
        &["run", "2x1"],
        AGAIN,
        0,
        "cashmere 2x1\nend 0 halted\nend 1 halted\nout 0 0\npage 0 0 9 0 0\n",
    ),
    (
        &["run", "2x2"],
        BACK,
        0,
        "cashmere 2x2\nend 0 halted\nend 1 halted\nend 2 halted\nend 3 halted\nout 0 3\npage 0 3 9 1 0\n",
    ),
    (
        &["run", "3x1"],
        ALONE,
        0,
        "cashmere 3x1\nend 0 halted\nend 1 halted\nend 2 halted\nout 0 5\nout 0 9\npage 0 0 0 0 0\npage 1 0 0 0 0\npage 2 5 9 0 0\n",
    ),
    (
        &["run", "2x2"],
        BESIDE,
        0,
        "cashmere 2x2\nend 0 halted\nend 1 halted\nend 2 halted\nend 3 halted\nout 2 300\nout 2 300\npage 0 0 0 0 0\npage 1 300 300 0 0\n",
    ),
    (
        &["run", "2x3"],
        COALESCED,
        0,
        "cashmere 2x3\nend 0 halted\nend 1 halted\nend 2 halted\nend 3 halted\nend 4 halted\nend 5 halted\npage 0 20 20 20 20 20 20 120 0\n",
    ),
    (
        &["run", "2x1"],
        PRODUCER,
        0,
        "cashmere 2x1\nend 0 halted\nend 1 halted\nout 0 5\npage 0 0 5\n",
    ),
    (
        &["gen", "seed=1", "2x2", "threads"],
        b"",
        0,
        "gen seed 1 2x2\ncode 59\nhalted 4\ntotal 14842789552643550044\nsum 15886666729926948536\n",
    ),
    (
        &["gen", "seed=1", "4x8", "threads", "looks=5", "steps=5"],
        b"",
        0,
        "gen seed 1 4x8\ncode 59\nhalted 32\ntotal 14842789552643550044\nsum 15886666729926948536\n",
    ),
];

/// How the top call ended, and the bytes written.
pub(crate) fn run_with<R: Threads + Wait + Sync + AllocGlobal, G: Gate + Sync>(
    rt: &R,
    words: &[&str],
    text: &[u8],
    gate: &G,
) -> Result<(Done, Vec<u8>), Fail> {
    let alloc = rt.alloc();
    let line = line(alloc, words)?;
    let mut from = MemSource::new(text.to_vec(alloc)?, 4096, Vec::new(alloc));
    let mut to = sink(alloc, 4096, &[])?;
    let done = top(rt, alloc, line.as_slice(), &mut from, &mut to, gate);
    Ok((done, to.bytes().to_vec(alloc)?))
}

#[test]
fn runs_by_threads(rt: HostRuntime) -> Result<(), Fail> {
    for (i, (words, text, status, wanted)) in THREADED.iter().enumerate() {
        let (done, written) = run_with(&rt, words, text, &OpenGate)?;
        assert_eq!(rt; done.status, *status, "run {i}");
        assert_eq!(rt; uncounted(&written), wanted.as_bytes(), "run {i}");
    }
    Ok(())
}

// Ten sweeps over a grid: sixteen threads print and leave what one processor does.
#[test]
fn relaxes_a_grid_by_threads(rt: HostRuntime) -> Result<(), Fail> {
    let (_, alone) = run_with(&rt, &["sim", "1x1"], GRID, &OpenGate)?;
    let rest = uncounted(&alone)
        .strip_prefix(b"cashmere 1x1\nend 0 halted\n".as_slice())
        .ok_or("other first lines")?;
    assert!(rt; rest.starts_with(b"out 0 999828\npage 0 0"));
    let mut wanted = halted(rt.alloc(), "cashmere 4x4\n", 16)?;
    wanted.extend_from_slice(rest)?;
    let (done, written) = run_with(&rt, &["run", "4x4"], GRID, &OpenGate)?;
    assert_eq!(rt; done.status, 0);
    assert!(rt; uncounted(&written) == wanted.as_slice());
    Ok(())
}
