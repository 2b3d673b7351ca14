// What programs leave on clusters of several nodes. What is wanted follows from the programs alone, since the words that they print
// are ordered; where a run is cut, from the number of events that each of their processors makes.
use crate::asking::{
    Row, all_answer, answer, answers, asked, halted, left, printed, race_lines, uncounted,
};
use crate::texts::{
    AGAIN, ALONE, BACK, BESIDE, COALESCED, COUNTER, FIRST, FIRST_REPORT, GRID, NEIGHBOURS, NEVER,
    PRODUCER, RACERS, REMOTE,
};
use dsm_entry::entry::Place;
use dsm_flat::judge::judge;
use dsm_flat::verdict::Verdict;
use std::alloc::Global;
use std::process::Abort;
use std::test::Fail;

/// Processor 0 stores 6 to word 0 and sets a flag; all others print the word behind it.
const FLAGGED: &[u8] =
    b".words 2\n.flags 1\nme r1\nli r2 0\nbne r1 r2 b\nli r3 6\nst r3 r2 0\nset 0\nhalt\nb: wait 0 1\nld r4 r2 0\nout r4\nhalt\n";

/// Each processor stores its number to the word of that number.
const OWN: &[u8] = b".words 2\nme r1\nst r1 r1 0\nhalt\n";

/// Processor 1 divides by 0, and processor 0 waits for a flag that nobody sets.
const TRAP: &[u8] = b".words 1\n.flags 1\nme r1\nli r2 0\nbne r1 r2 t\nwait 0 1\nt: div r1 r2 r2\n";

/// Runs on several nodes.
const CLUSTERS: &[Row] = &[
    (
        &["sim", "2x2"],
        COUNTER,
        0,
        "cashmere 2x2\nend 0 halted\nend 1 halted\nend 2 halted\nend 3 halted\nout 0 400\npage 0 400 0 0 0\n",
    ),
    (
        &["sim", "3x2"],
        COUNTER,
        0,
        "cashmere 3x2\nend 0 halted\nend 1 halted\nend 2 halted\nend 3 halted\nend 4 halted\nend 5 halted\nout 0 600\npage 0 600 0 0 0\n",
    ),
    // Neighbours share a page.
    (
        &["sim", "2x2"],
        NEIGHBOURS,
        0,
        "cashmere 2x2\nend 0 halted\nend 1 halted\nend 2 halted\nend 3 halted\nout 0 101\nout 1 102\nout 2 103\nout 3 100\npage 0 100 101 102 103 0 0 0 0\n",
    ),
    (
        &["sim", "8x1"],
        NEIGHBOURS,
        0,
        "cashmere 8x1\nend 0 halted\nend 1 halted\nend 2 halted\nend 3 halted\nend 4 halted\nend 5 halted\nend 6 halted\nend 7 halted\nout 0 101\nout 1 102\nout 2 103\nout 3 104\nout 4 105\nout 5 106\nout 6 107\nout 7 100\npage 0 100 101 102 103 104 105 106 107\n",
    ),
    (
        &["sim", "4x2"],
        NEIGHBOURS,
        0,
        "cashmere 4x2\nend 0 halted\nend 1 halted\nend 2 halted\nend 3 halted\nend 4 halted\nend 5 halted\nend 6 halted\nend 7 halted\nout 0 101\nout 1 102\nout 2 103\nout 3 104\nout 4 105\nout 5 106\nout 6 107\nout 7 100\npage 0 100 101 102 103 104 105 106 107\n",
    ),
    (
        &["sim", "2x4"],
        NEIGHBOURS,
        0,
        "cashmere 2x4\nend 0 halted\nend 1 halted\nend 2 halted\nend 3 halted\nend 4 halted\nend 5 halted\nend 6 halted\nend 7 halted\nout 0 101\nout 1 102\nout 2 103\nout 3 104\nout 4 105\nout 5 106\nout 6 107\nout 7 100\npage 0 100 101 102 103 104 105 106 107\n",
    ),
    // Ten events of each: none has stored yet.
    (
        &["sim", "2x2", "steps=40"],
        NEIGHBOURS,
        1,
        "cashmere 2x2\nend 0 cut\nend 1 cut\nend 2 cut\nend 3 cut\npage 0 0 0 0 0 0 0 0 0\n",
    ),
    (
        &["sim", "2x1"],
        AGAIN,
        0,
        "cashmere 2x1\nend 0 halted\nend 1 halted\nout 0 0\npage 0 0 9 0 0\n",
    ),
    (
        &["sim", "2x2"],
        BACK,
        0,
        "cashmere 2x2\nend 0 halted\nend 1 halted\nend 2 halted\nend 3 halted\nout 0 3\npage 0 3 9 1 0\n",
    ),
    (
        &["sim", "3x1"],
        ALONE,
        0,
        "cashmere 3x1\nend 0 halted\nend 1 halted\nend 2 halted\nout 0 5\nout 0 9\npage 0 0 0 0 0\npage 1 0 0 0 0\npage 2 5 9 0 0\n",
    ),
    (
        &["sim", "2x2"],
        BESIDE,
        0,
        "cashmere 2x2\nend 0 halted\nend 1 halted\nend 2 halted\nend 3 halted\nout 2 300\nout 2 300\npage 0 0 0 0 0\npage 1 300 300 0 0\n",
    ),
    (
        &["sim", "2x3"],
        COALESCED,
        0,
        "cashmere 2x3\nend 0 halted\nend 1 halted\nend 2 halted\nend 3 halted\nend 4 halted\nend 5 halted\npage 0 20 20 20 20 20 20 120 0\n",
    ),
    // Processor 0 makes 21 events, and processor 1 makes 19.
    (
        &["sim", "2x1"],
        REMOTE,
        0,
        "cashmere 2x1\nend 0 halted\nend 1 halted\nout 1 5\npage 0 5 0\n",
    ),
    (
        &["sim", "2x1", "steps=40"],
        REMOTE,
        0,
        "cashmere 2x1\nend 0 halted\nend 1 halted\nout 1 5\npage 0 5 0\n",
    ),
    (
        &["sim", "2x1", "steps=39"],
        REMOTE,
        1,
        "cashmere 2x1\nend 0 cut\nend 1 halted\nout 1 5\npage 0 5 0\n",
    ),
    (
        &["sim", "2x1"],
        FLAGGED,
        0,
        "cashmere 2x1\nend 0 halted\nend 1 halted\nout 1 6\npage 0 6 0\n",
    ),
    (
        &["sim", "8x4"],
        FLAGGED,
        0,
        "cashmere 8x4\nend 0 halted\nend 1 halted\nend 2 halted\nend 3 halted\nend 4 halted\nend 5 halted\nend 6 halted\nend 7 halted\nend 8 halted\nend 9 halted\nend 10 halted\nend 11 halted\nend 12 halted\nend 13 halted\nend 14 halted\nend 15 halted\nend 16 halted\nend 17 halted\nend 18 halted\nend 19 halted\nend 20 halted\nend 21 halted\nend 22 halted\nend 23 halted\nend 24 halted\nend 25 halted\nend 26 halted\nend 27 halted\nend 28 halted\nend 29 halted\nend 30 halted\nend 31 halted\nout 1 6\nout 2 6\nout 3 6\nout 4 6\nout 5 6\nout 6 6\nout 7 6\nout 8 6\nout 9 6\nout 10 6\nout 11 6\nout 12 6\nout 13 6\nout 14 6\nout 15 6\nout 16 6\nout 17 6\nout 18 6\nout 19 6\nout 20 6\nout 21 6\nout 22 6\nout 23 6\nout 24 6\nout 25 6\nout 26 6\nout 27 6\nout 28 6\nout 29 6\nout 30 6\nout 31 6\npage 0 6 0\n",
    ),
    (
        &["sim", "2x1"],
        OWN,
        0,
        "cashmere 2x1\nend 0 halted\nend 1 halted\npage 0 0 1\n",
    ),
    (
        &["sim", "2x1"],
        PRODUCER,
        0,
        "cashmere 2x1\nend 0 halted\nend 1 halted\nout 0 5\npage 0 0 5\n",
    ),
    (
        &["sim", "2x1"],
        TRAP,
        1,
        "cashmere 2x1\nend 0 stopped by 1\nend 1 trapped 4 zero\npage 0 0\n",
    ),
    // Processor 0 makes 13 events, and processor 1 makes 14.
    (
        &["sim", "2x1", "looks=5"],
        NEVER,
        1,
        "cashmere 2x1\nend 0 looked\nend 1 stopped by 0\npage 0 0 0\n",
    ),
];

/// Runs on one node, whose accesses have faults and whose releases have work as everywhere.
const NODES: &[Row] = &[
    // It makes 30 events.
    (
        &["sim", "1x1", "steps=29"],
        FIRST,
        1,
        "cashmere 1x1\nend 0 cut\nout 0 7\npage 0 0 0 7 0\n",
    ),
    (&["sim", "1x1", "steps=30"], FIRST, 0, FIRST_REPORT),
    (
        &["sim", "1x1", "steps=3"],
        FIRST,
        1,
        "cashmere 1x1\nend 0 cut\npage 0 0 0 0 0\n",
    ),
    // Processor 0 makes 13 events, and processor 1 makes 14.
    (
        &["sim", "1x2", "looks=5"],
        NEVER,
        1,
        "cashmere 1x2\nend 0 looked\nend 1 stopped by 0\npage 0 0 0\n",
    ),
    (
        &["sim", "1x2", "looks=5", "steps=27"],
        NEVER,
        1,
        "cashmere 1x2\nend 0 looked\nend 1 stopped by 0\npage 0 0 0\n",
    ),
    (
        &["sim", "1x2", "looks=5", "steps=26"],
        NEVER,
        1,
        "cashmere 1x2\nend 0 looked\nend 1 cut\npage 0 0 0\n",
    ),
];

#[test]
fn runs_on_clusters(rt: HostRuntime) -> Result<(), Fail> {
    all_answer(&rt, CLUSTERS)?;
    all_answer(&rt, NODES)
}

// The sum was found by a plain relaxation of one array. Sixteen processors print and leave what one does, in both orders.
#[test]
fn relaxes_a_grid(rt: HostRuntime) -> Result<(), Fail> {
    let (status, written) = answer(rt.alloc(), &["sim", "1x1"], GRID, (4096, &[]), (4096, &[]))?;
    assert_eq!(rt; status, 0);
    let rest = uncounted(&written)
        .strip_prefix(b"cashmere 1x1\nend 0 halted\n".as_slice())
        .ok_or("other first lines")?;
    assert!(rt; rest.starts_with(b"out 0 999828\npage 0 0"));
    let mut wanted = halted(rt.alloc(), "cashmere 4x4\n", 16)?;
    wanted.extend_from_slice(rest)?;
    for words in [
        ["sim", "4x4"].as_slice(),
        ["sim", "4x4", "kind=mixed", "seed=3"].as_slice(),
    ] {
        let (status, written) = answer(rt.alloc(), words, GRID, (4096, &[]), (4096, &[]))?;
        assert_eq!(rt; status, 0);
        assert!(rt; uncounted(&written) == wanted.as_slice());
    }
    Ok(())
}

// Where each has a word of its own, all words are ordered.
#[test]
fn neighbours_are_ordered(rt: HostRuntime) -> Result<(), Fail> {
    let ran = left(rt.alloc(), &["sim", "2x2"], NEIGHBOURS)?;
    assert!(rt; ran.traces.len() == 4);
    assert_eq!(rt;
        judge(rt.alloc(), ran.traces.as_slice(), 0)?,
        Verdict::Ordered
    );
    Ok(())
}

// Processors 4 and 5 race for word 4, on the page of four others, who get what they must; it is the only word that is reported.
#[test]
fn racing_neighbours(rt: HostRuntime) -> Result<(), Fail> {
    races(&rt, rt.alloc(), &["sim", "6x1"])
}

// In every order.
#[test]
fn racing_neighbours_in_mixed_order(rt: HostRuntime) -> Result<(), Fail> {
    for seed in 0..20 {
        let seed = format!(in rt.alloc(); "seed={seed}")?;
        races(
            &rt,
            rt.alloc(),
            &["sim", "6x1", "kind=mixed", seed.as_str()],
        )?;
    }
    Ok(())
}

// What the neighbours and the racers leave.
fn races(rt: &impl Abort, alloc: Global, words: &[&str]) -> Result<(), Fail> {
    let (done, written) = asked(alloc, words, RACERS, (4096, &[]), (4096, &[]))?;
    assert_eq!(rt; done.status, 0);
    assert_eq!(rt; race_lines(&written), b"raced 4\n".as_slice(), "{words:?}");
    let ran = done.ran.ok_or("no run")?;
    assert!(rt; ran.traces.len() == 6);
    for (p, wanted) in [101, 102, 103, 100].iter().enumerate() {
        let outs = printed(alloc, &ran.traces[p])?;
        assert_eq!(rt;
            outs.as_slice(),
            [*wanted].as_slice(),
            "processor {p}: {words:?}"
        );
    }
    for trace in &ran.traces[4..6] {
        let outs = printed(alloc, trace)?;
        assert!(rt;
            [[0], [104], [105]]
                .iter()
                .any(|v| outs.as_slice() == v.as_slice()),
            "{words:?}"
        );
    }
    assert!(rt; ran.pages.as_slice().starts_with(&[100, 101, 102, 103]));
    let first = Verdict::Raced {
        x: Place { p: 4, i: 0 },
        y: Place { p: 5, i: 0 },
    };
    assert_eq!(rt; judge(alloc, ran.traces.as_slice(), 4)?, first, "{words:?}");
    assert_eq!(rt; judge(alloc, ran.traces.as_slice(), 0)?, Verdict::Ordered);
    Ok(())
}

// Each processor's own words and the sum under a lock are the same in every order.
#[test]
fn coalesces_in_mixed_order(rt: HostRuntime) -> Result<(), Fail> {
    for seed in 0..20 {
        let seed = format!(in rt.alloc(); "seed={seed}")?;
        assert!(rt;
            answers(
                rt.alloc(),
                &["sim", "2x3", "kind=mixed", seed.as_str()],
                COALESCED,
                0,
                "cashmere 2x3\nend 0 halted\nend 1 halted\nend 2 halted\nend 3 halted\nend 4 halted\nend 5 halted\npage 0 20 20 20 20 20 20 120 0\n",
            )?,
            "{seed}"
        );
    }
    Ok(())
}
