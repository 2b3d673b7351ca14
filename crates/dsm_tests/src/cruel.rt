// Programs under schedules that are chosen to be cruel: a store comes where another processor's work on the same word is least ready
// for it. What they print and leave follows from the programs alone.
use crate::asking::printed;
use crate::texts::{AGAIN, ALONE, BACK, BESIDE, COALESCED, COUNTER, FIRST, NEIGHBOURS, RACERS};
use dsm_core::ran::Ran;
use dsm_entry::entry::Entry;
use dsm_io::MemSource;
use dsm_isa::program::Program;
use dsm_protocol::limits::Limits;
use dsm_top::reading::read_program;
use dsm_twoway::after::after;
use dsm_words::topology::Topology;
use std::alloc::Global;
use std::test::Fail;

/// The number of a processor, and how many events of it come next.
type Run = (u32, usize);

/// A schedule whose last run but one begins with a store to a word on which a flush, a merge or a break is at work. That goes on in the
/// last run.
struct Scene {
    text: &'static [u8],
    /// Nodes, and processors of each.
    cluster: (u32, u32),
    runs: &'static [Run],
    /// Who stores in the last run but one, the word, and the value.
    store: (usize, u32, u64),
    /// The memory behind all events but the last, and behind all, as its homes have it.
    memory: [&'static [u64]; 2],
    /// How many flushes, merges and breaks are over by then.
    over: [u64; 2],
    /// What the first processors print, when all go on in turn.
    outs: &'static [&'static [u64]],
    /// The first words of memory then.
    left: &'static [u64],
}

/// How often all processors go on in turn behind the runs of a schedule.
const ROUNDS: usize = 6000;

const SCENES: &[Scene] = &[
    // Node 0 has the page alone, whose home is node 1. Processor 2 breaks it: it has loaded word 1 at node 0 when processor 1 stores to
    // it, with the mapping that it had before. The break sends the old word.
    Scene {
        text: NEIGHBOURS,
        cluster: (2, 2),
        runs: &[(2, 6), (0, 35), (1, 6), (2, 16), (1, 1), (2, 22)],
        store: (1, 1, 101),
        memory: [&[100, 0, 0, 0, 0, 0, 0, 0], &[100, 0, 0, 0, 0, 0, 0, 0]],
        over: [0, 1],
        outs: &[&[101], &[102], &[103], &[100]],
        left: &[100, 101, 102, 103, 0, 0, 0, 0],
    },
    // Processor 2 flushes the page from node 1, and has loaded word 3 when processor 3 stores to it and begins its own release. The
    // flush's time was drawn before, so that processor 3 has to flush too.
    Scene {
        text: NEIGHBOURS,
        cluster: (2, 2),
        runs: &[(0, 18), (2, 62), (3, 12), (2, 17), (3, 3), (2, 9)],
        store: (3, 3, 103),
        memory: [&[100, 0, 102, 0, 0, 0, 0, 0], &[100, 0, 102, 0, 0, 0, 0, 0]],
        over: [1, 2],
        outs: &[&[101], &[102], &[103], &[100]],
        left: &[100, 101, 102, 103, 0, 0, 0, 0],
    },
    // Processor 0's node is the home, processor 1's has the page alone. Processor 0 breaks it, and has loaded word 1 there when
    // processor 1 stores to it.
    Scene {
        text: RACERS,
        cluster: (6, 1),
        runs: &[(0, 8), (1, 44), (0, 18), (1, 1), (0, 22)],
        store: (1, 1, 101),
        memory: [&[0, 0, 0, 0, 0, 0, 0, 0], &[0, 0, 0, 0, 0, 0, 0, 0]],
        over: [0, 1],
        outs: &[&[101], &[102], &[103], &[100]],
        left: &[100, 101, 102, 103],
    },
    // Processor 3 flushes the page from node 1: it has loaded the 7 in word 0, and the 3 in its twin, when processor 2 stores 3 to it
    // again. The twin and then the home get the 7.
    Scene {
        text: BACK,
        cluster: (2, 2),
        runs: &[(0, 25), (2, 858), (3, 35), (2, 1), (3, 2)],
        store: (2, 0, 3),
        memory: [&[3, 0, 1, 0], &[7, 0, 1, 0]],
        over: [1, 1],
        outs: &[&[3], &[], &[], &[]],
        left: &[3, 9, 1, 0],
    },
    // The same store comes when the twin has the 7, and before the home has it.
    Scene {
        text: BACK,
        cluster: (2, 2),
        runs: &[(0, 25), (2, 858), (3, 36), (2, 1), (3, 1)],
        store: (2, 0, 3),
        memory: [&[3, 0, 1, 0], &[7, 0, 1, 0]],
        over: [1, 1],
        outs: &[&[3], &[], &[], &[]],
        left: &[3, 9, 1, 0],
    },
    // Processor 0's node is the home of page 2, processor 1's has it alone. Processor 0 breaks it, and has loaded the 8 in word 9 there
    // when processor 1 stores 9. The home gets the 8.
    Scene {
        text: ALONE,
        cluster: (3, 1),
        runs: &[(0, 10), (1, 1640), (0, 15), (1, 1), (0, 2)],
        store: (1, 9, 9),
        memory: [
            &[0, 0, 0, 0, 0, 0, 0, 0, 0, 0, 0, 0],
            &[0, 0, 0, 0, 0, 0, 0, 0, 0, 8, 0, 0],
        ],
        over: [0, 0],
        outs: &[&[5, 9], &[], &[]],
        left: &[0, 0, 0, 0, 0, 0, 0, 0, 5, 9, 0, 0],
    },
    // Node 0 has page 1 alone, whose home is node 1. Processor 2 breaks it: it has loaded the 299 in word 4 there when processor 0 makes
    // its last store, and then the 299 in word 5 when processor 1 does. The home gets the 299 of both.
    Scene {
        text: BESIDE,
        cluster: (2, 2),
        runs: &[
            (2, 411),
            (0, 931),
            (1, 911),
            (2, 13),
            (0, 1),
            (2, 3),
            (1, 1),
            (2, 2),
        ],
        store: (1, 5, 300),
        memory: [&[0, 0, 0, 0, 299, 0, 0, 0], &[0, 0, 0, 0, 299, 299, 0, 0]],
        over: [0, 0],
        outs: &[&[], &[], &[300, 300], &[]],
        left: &[0, 0, 0, 0, 300, 300, 0, 0],
    },
    // Processor 4 makes its last two stores to word 4 while its node's copy is merged, first by processor 3 and then by processor 5, which
    // have each just loaded this word at home and in the twin. A merge that wrote what it found equal would bring back the 19.
    Scene {
        text: COALESCED,
        cluster: (2, 3),
        runs: &[
            (0, 20),
            (4, 2762),
            (0, 47),
            (3, 104),
            (4, 1),
            (3, 63),
            (4, 62),
            (1, 59),
            (5, 104),
            (4, 1),
            (5, 8),
        ],
        store: (4, 4, 20),
        memory: [&[1, 1, 0, 1, 20, 20, 22, 0], &[1, 1, 0, 1, 20, 20, 22, 0]],
        over: [44, 45],
        outs: &[&[], &[], &[], &[], &[], &[]],
        left: &[20, 20, 20, 20, 20, 20, 120, 0],
    },
];

/// The schedule of these runs.
fn schedule(alloc: Global, runs: &[Run]) -> Result<Vec<u32>, Fail> {
    let mut list = Vec::new(alloc);
    for (p, n) in runs {
        list.extend_from_slice(&[*p].repeat(alloc, *n)?)?;
    }
    Ok(list)
}

/// All processors of a cluster in turn, `ROUNDS` times.
fn rounds(alloc: Global, cluster: (u32, u32)) -> Result<Vec<u32>, Fail> {
    let mut turn = Vec::new(alloc);
    for p in 0..Topology::new(cluster.0, cluster.1)?.all() {
        turn.push(p)?;
    }
    Ok(turn.repeat(alloc, ROUNDS)?)
}

/// The state behind a schedule as what is left.
fn left_by(alloc: Global, program: &Program, t: Topology, list: &[u32]) -> Result<Ran, Fail> {
    let all = t.all();
    if !list.iter().all(|p| *p < all) {
        return Err(Fail::from("no such processor"));
    }
    let limits = Limits {
        turns: 200_000,
        looks: None,
    };
    let state = after(alloc, program, t, limits, list)?;
    Ok(state.into_ran(alloc)?)
}

/// What the program leaves behind a schedule.
fn left_behind(alloc: Global, text: &[u8], cluster: (u32, u32), list: &[u32]) -> Result<Ran, Fail> {
    let mut source = MemSource::new(text.to_vec(alloc)?, 4096, Vec::new(alloc));
    let program = read_program(alloc, &mut source)?;
    left_by(alloc, &program, Topology::new(cluster.0, cluster.1)?, list)
}

/// The last thing that a processor did.
fn last(ran: &Ran, p: usize) -> Option<Entry> {
    let trace = ran.traces.get(p)?;
    trace.get(trace.len().checked_sub(1)?)
}

/// How many flushes, merges and breaks are over.
fn over(ran: &Ran) -> u64 {
    ran.counts
        .flushes
        .wrapping_add(ran.counts.merges)
        .wrapping_add(ran.counts.breaks)
}

/// Whether behind these events the scene's store is the last thing that its processor did, this is the memory, and so many flushes,
/// merges and breaks are over.
fn stands(
    alloc: Global,
    scene: &Scene,
    events: &[u32],
    memory: &[u64],
    times: u64,
) -> Result<bool, Fail> {
    let ran = left_behind(alloc, scene.text, scene.cluster, events)?;
    let (p, w, v) = scene.store;
    Ok(
        last(&ran, p) == Some(Entry::Store { w, v })
            && ran.pages.as_slice() == memory
            && over(&ran) == times,
    )
}

// In each scene the store is made while the work on its word goes on, which does with the last event what it does with the old value.
#[test]
fn stores_meet_work_on_their_word(rt: HostRuntime) -> Result<(), Fail> {
    for (i, scene) in SCENES.iter().enumerate() {
        let list = schedule(rt.alloc(), scene.runs)?;
        let (_, before) = list.split_last().ok_or("no events")?;
        let [memory, later] = scene.memory;
        let [over, over_later] = scene.over;
        assert!(rt;
            stands(rt.alloc(), scene, before, memory, over)?,
            "scene {i}"
        );
        assert!(rt;
            stands(rt.alloc(), scene, &list, later, over_later)?,
            "scene {i}"
        );
    }
    Ok(())
}

// And however that is, what is printed and left at the end is what it must be.
#[test]
fn ordered_words_are_right_all_the_same(rt: HostRuntime) -> Result<(), Fail> {
    for (i, scene) in SCENES.iter().enumerate() {
        let mut list = schedule(rt.alloc(), scene.runs)?;
        list.extend_from_slice(&rounds(rt.alloc(), scene.cluster)?)?;
        let ran = left_behind(rt.alloc(), scene.text, scene.cluster, &list)?;
        assert!(rt; ran.is_halted(), "scene {i}");
        for (trace, outs) in ran.traces.iter().zip(scene.outs) {
            assert_eq!(rt; printed(rt.alloc(), trace)?.as_slice(), *outs, "scene {i}");
        }
        assert!(rt; ran.pages.as_slice().starts_with(scene.left), "scene {i}");
    }
    Ok(())
}

/// Four processors have found a lock free. Each of these in turn takes it, adds 1, gives it back and finds it free again, by so many
/// events; behind that the exchange of each of the others fails, and they find it free again.
fn rivals(alloc: Global, turns: &[Run]) -> Result<Vec<u32>, Fail> {
    let mut list = Vec::new(alloc);
    for (p, n) in turns {
        let (a, b, c) = ((p ^ 1) % 4, (p ^ 2) % 4, (p ^ 3) % 4);
        list.extend_from_slice(&schedule(alloc, &[(*p, *n), (a, 3), (b, 3), (c, 3)])?)?;
    }
    Ok(list)
}

// The lock and the page go to the other node each time, and whoever does not get the lock has found it free. Of 396 additions each comes
// with three exchanges that fail.
#[test]
fn rivals_for_a_lock(rt: HostRuntime) -> Result<(), Fail> {
    let mut list = schedule(rt.alloc(), &[(0, 3), (1, 3), (2, 3), (3, 3)])?;
    let first = &[
        (0, 37),
        (2, 91),
        (1, 40),
        (3, 82),
        (0, 26),
        (2, 90),
        (1, 33),
        (3, 90),
    ];
    list.extend_from_slice(&rivals(rt.alloc(), first)?)?;
    let again = rivals(rt.alloc(), &[(0, 33), (2, 90), (1, 33), (3, 90)])?;
    list.extend_from_slice(&again.repeat(rt.alloc(), 97)?)?;
    let ran = left_behind(rt.alloc(), COUNTER, (2, 2), &list)?;
    assert_eq!(rt; ran.pages.as_slice(), [396, 0, 0, 0].as_slice());
    assert_eq!(rt; ran.counts.unready, 3 * 396);
    list.extend_from_slice(&rounds(rt.alloc(), (2, 2))?)?;
    let ran = left_behind(rt.alloc(), COUNTER, (2, 2), &list)?;
    assert!(rt; ran.is_halted());
    let trace = ran.traces.first().ok_or("no trace")?;
    assert_eq!(rt; printed(rt.alloc(), trace)?.as_slice(), [400].as_slice());
    assert_eq!(rt; ran.pages.as_slice(), [400, 0, 0, 0].as_slice());
    Ok(())
}

// The flags leave no choice but who waits, and here nobody does: each goes on until the other has what it waits for. Processor 1 stores
// the 0 at the home, with the mapping that it kept when its page was broken, over the 5 that was sent there.
#[test]
fn nobody_waits(rt: HostRuntime) -> Result<(), Fail> {
    let list = schedule(rt.alloc(), &[(1, 23), (0, 79)])?;
    let ran = left_behind(rt.alloc(), AGAIN, (2, 1), &list)?;
    assert_eq!(rt; ran.pages.as_slice(), [5, 9, 0, 0].as_slice());
    let runs = &[(1, 23), (0, 79), (1, 21), (0, 45), (1, 4), (0, 3)];
    let ran = left_behind(rt.alloc(), AGAIN, (2, 1), &schedule(rt.alloc(), runs)?)?;
    assert!(rt; ran.is_halted());
    assert_eq!(rt; ran.counts.unready, 0);
    let trace = ran.traces.first().ok_or("no trace")?;
    assert_eq!(rt; printed(rt.alloc(), trace)?.as_slice(), [0].as_slice());
    assert_eq!(rt; ran.pages.as_slice(), [0, 9, 0, 0].as_slice());
    Ok(())
}

// One processor alone halts with its thirtieth event.
#[test]
fn thirty_events_of_one_processor(rt: HostRuntime) -> Result<(), Fail> {
    let ran = left_behind(rt.alloc(), FIRST, (1, 1), &[0; 29])?;
    assert!(rt; !ran.is_halted());
    let ran = left_behind(rt.alloc(), FIRST, (1, 1), &[0; 30])?;
    assert!(rt; ran.is_halted());
    assert_eq!(rt; ran.pages.as_slice(), [0, 0, 7, 0].as_slice());
    Ok(())
}
