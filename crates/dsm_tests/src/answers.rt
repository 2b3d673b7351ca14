// What the top call answers: the commands, and runs on one node.
use crate::asking::{CHECK, LIST, Row, SIM, all_answer, answer, left};
use crate::texts::{COUNTER, FIRST, FIRST_COUNTS, FIRST_REPORT, NEIGHBOURS, PRODUCER, RACERS};
use dsm_entry::entry::Place;
use dsm_flat::judge::judge;
use dsm_flat::verdict::Verdict;
use std::test::Fail;

/// The commands.
const COMMANDS: &[Row] = &[
    (
        CHECK,
        FIRST,
        0,
        "program pages 1 words 4 locks 0 barriers 0 flags 0 code 6\n",
    ),
    (
        LIST,
        FIRST,
        0,
        ".pages 1\n.words 4\n.locks 0\n.barriers 0\n.flags 0\nli r1 7\nli r2 2\nst r1 r2 0\nld r3 r2 0\nout r3\nhalt\n",
    ),
    (SIM, FIRST, 0, FIRST_REPORT),
    (&["sim", "1x1", "seed=1"], FIRST, 0, FIRST_REPORT),
    (
        &["sim", "1x1", "kind=mixed", "seed=1"],
        FIRST,
        0,
        FIRST_REPORT,
    ),
    (&["sim"], FIRST, 2, "refused word 2\n"),
    (&[], FIRST, 2, "refused word 1\n"),
    (&["check", "x"], FIRST, 2, "refused word 2\n"),
    (&["list", "list"], FIRST, 2, "refused word 2\n"),
    (&["sim", "1x1", "1x1"], FIRST, 2, "refused word 3\n"),
    (SIM, b"", 3, "refused line 1 NoCode\n"),
    (LIST, b"foo", 3, "refused line 1 UnknownWord\n"),
    (
        SIM,
        b".words 4\nld r1 r2 4\nhalt\n",
        1,
        "cashmere 1x1\nend 0 trapped 0 address 4\npage 0 0 0 0 0\n",
    ),
    (
        SIM,
        b".words 4\nld r1 r2 3\nout r1\nhalt\n",
        0,
        "cashmere 1x1\nend 0 halted\nout 0 0\npage 0 0 0 0 0\n",
    ),
    (
        SIM,
        b".words 1\ndiv r1 r2 r3\nhalt\n",
        1,
        "cashmere 1x1\nend 0 trapped 0 zero\npage 0 0\n",
    ),
    (
        SIM,
        b".words 1\nli r0 1\nst r0 r1 18446744073709551615",
        1,
        "cashmere 1x1\nend 0 trapped 1 address 18446744073709551615\npage 0 0\n",
    ),
    (
        SIM,
        b".pages 2\n.words 2\n.init 3 9\n.init 0 5\nli r1 2\nld r2 r1 1\nout r2\nst r2 r1 0\nhalt",
        0,
        "cashmere 1x1\nend 0 halted\nout 0 9\npage 0 5 0\npage 1 9 9\n",
    ),
];

const LOOP: &[u8] = b".words 1\nl: jmp l\n";

const NINE: &[u8] =
    b".words 1\nli r1 0\nli r1 0\nli r1 0\nli r1 0\nli r1 0\nli r1 0\nli r1 0\nli r1 0\nli r1 0\nhalt\n";

/// Runs on one node.
/// Each processor stores 600 down to 1 to its own word, and loads each again: 2,402 instructions and 1,200 entries.
const LONG: &[u8] =
    b".words 4\nme r1\nli r2 600\nloop: st r2 r1 0\nld r3 r1 0\nsubi r2 r2 1\nbne r2 r4 loop\nhalt\n";

const RUNS: &[Row] = &[
    (
        &["sim", "1x2"],
        LONG,
        0,
        "cashmere 1x2\nend 0 halted\nend 1 halted\npage 0 1 1 0 0\n",
    ),
    (
        &["sim", "1x4"],
        COUNTER,
        0,
        "cashmere 1x4\nend 0 halted\nend 1 halted\nend 2 halted\nend 3 halted\nout 0 400\npage 0 400 0 0 0\n",
    ),
    (
        &["sim", "1x8"],
        COUNTER,
        0,
        "cashmere 1x8\nend 0 halted\nend 1 halted\nend 2 halted\nend 3 halted\nend 4 halted\nend 5 halted\nend 6 halted\nend 7 halted\nout 0 800\npage 0 800 0 0 0\n",
    ),
    (
        &["sim", "1x4"],
        NEIGHBOURS,
        0,
        "cashmere 1x4\nend 0 halted\nend 1 halted\nend 2 halted\nend 3 halted\nout 0 101\nout 1 102\nout 2 103\nout 3 100\npage 0 100 101 102 103 0 0 0 0\n",
    ),
    (
        &["sim", "1x8"],
        NEIGHBOURS,
        0,
        "cashmere 1x8\nend 0 halted\nend 1 halted\nend 2 halted\nend 3 halted\nend 4 halted\nend 5 halted\nend 6 halted\nend 7 halted\nout 0 101\nout 1 102\nout 2 103\nout 3 104\nout 4 105\nout 5 106\nout 6 107\nout 7 100\npage 0 100 101 102 103 104 105 106 107\n",
    ),
    (
        &["sim", "1x4"],
        RACERS,
        0,
        "cashmere 1x4\nend 0 halted\nend 1 halted\nend 2 halted\nend 3 halted\nout 0 101\nout 1 102\nout 2 103\nout 3 100\npage 0 100 101 102 103 0 0 0 0\n",
    ),
    // Word 4 is not ordered. By the schedule processor 7 stores to it last, and all load behind the barrier.
    (
        &["sim", "1x8"],
        RACERS,
        0,
        "cashmere 1x8\nend 0 halted\nend 1 halted\nend 2 halted\nend 3 halted\nend 4 halted\nend 5 halted\nend 6 halted\nend 7 halted\nout 0 101\nout 1 102\nout 2 103\nout 3 100\nout 4 107\nout 5 107\nout 6 107\nout 7 107\npage 0 100 101 102 103 107 0 0 0\nraced 4\n",
    ),
    (
        &["sim", "1x2", "kind=round"],
        PRODUCER,
        0,
        "cashmere 1x2\nend 0 halted\nend 1 halted\nout 0 5\npage 0 0 5\n",
    ),
    (
        &["sim", "1x1", "turns=10"],
        LOOP,
        1,
        "cashmere 1x1\nend 0 spent\npage 0 0\n",
    ),
    (
        &["sim", "1x1", "steps=10", "turns=10"],
        LOOP,
        1,
        "cashmere 1x1\nend 0 cut\npage 0 0\n",
    ),
    (
        &["sim", "1x1", "steps=11", "turns=10"],
        LOOP,
        1,
        "cashmere 1x1\nend 0 spent\npage 0 0\n",
    ),
    (
        &["sim", "1x1", "turns=10"],
        NINE,
        0,
        "cashmere 1x1\nend 0 halted\npage 0 0\n",
    ),
    (
        &["sim", "1x1", "turns=9"],
        NINE,
        1,
        "cashmere 1x1\nend 0 spent\npage 0 0\n",
    ),
    (
        SIM,
        b".words 1\n.locks 1\nunlock 0\nhalt\n",
        1,
        "cashmere 1x1\nend 0 trapped 0 notheld 0\npage 0 0\n",
    ),
    (
        &["sim", "1x2"],
        b".words 1\n.flags 1\nme r1\nli r2 0\nbne r1 r2 t\nwait 0 1\nt: div r1 r2 r2\n",
        1,
        "cashmere 1x2\nend 0 stopped by 1\nend 1 trapped 4 zero\npage 0 0\n",
    ),
];

#[test]
fn answers_as_told(rt: HostRuntime) -> Result<(), Fail> {
    all_answer(&rt, COMMANDS)?;
    all_answer(&rt, RUNS)
}

// With `trace` what the processor did stands behind the counts.
#[test]
fn traces_a_run(rt: HostRuntime) -> Result<(), Fail> {
    let words = &["sim", "1x1", "trace"];
    let (status, written) = answer(rt.alloc(), words, FIRST, (4096, &[]), (4096, &[]))?;
    assert_eq!(rt; status, 0);
    let wanted = format!(in rt.alloc();
        "{FIRST_REPORT}{FIRST_COUNTS}t 0 store 2 7\nt 0 load 2 7\nt 0 out 7\nt 0 signal close 0\nt 0 pass close 1\n"
    )?;
    assert_eq!(rt; written.as_slice(), wanted.as_bytes());
    Ok(())
}

// Where each has a word of its own, all words are ordered. Where two store to one word before they meet, their stores race.
#[test]
fn judges_runs(rt: HostRuntime) -> Result<(), Fail> {
    let ran = left(rt.alloc(), &["sim", "1x4"], NEIGHBOURS)?;
    assert!(rt; ran.traces.len() == 4);
    assert_eq!(rt;
        judge(rt.alloc(), ran.traces.as_slice(), 0)?,
        Verdict::Ordered
    );
    let ran = left(rt.alloc(), &["sim", "1x6"], RACERS)?;
    assert!(rt; ran.traces.len() == 6);
    let first = Verdict::Raced {
        x: Place { p: 4, i: 0 },
        y: Place { p: 5, i: 0 },
    };
    assert_eq!(rt; judge(rt.alloc(), ran.traces.as_slice(), 4)?, first);
    assert_eq!(rt;
        judge(rt.alloc(), ran.traces.as_slice(), 0)?,
        Verdict::Ordered
    );
    Ok(())
}
