// A cluster event by event, and what it leaves.
ghost use Rattle.dsm_core.specs.States.{IsFor};

use crate::adding::{adding, adds, has_trace};
use dsm_core::state::{State, Step};
use dsm_isa::instr::Instr;
use dsm_isa::program::Program;
use dsm_isa::shape::Shape;
use dsm_local::end::End;
use dsm_protocol::counts::Counts;
use dsm_protocol::limits::Limits;
use dsm_samples::programs::program;
use dsm_words::topology::Topology;
use std::process::Abort;
use std::test::Fail;

const LIMITS: Limits = Limits {
    turns: 100,
    looks: Some(100),
};

/// One event of each of these processors.
fn steps(rt: &impl Abort, state: &mut State, program: &Program, list: &[u32])
    requires { IsFor state.old program.now }
    ensures { IsFor state.new program.now }
{
    for p in list {
        assert!(rt; *p < state.all());
        assert_eq!(rt; state.step(program, *p), Step::Did);
    }
}

// Two processors add 1 to a word under a lock. Processor 1 loses its first exchange, and finds the lock held; processor 0
// goes on alone and looks three times at the closing barrier before processor 1 arrives. Each faults on a load and on a
// store; the page is exclusive until the closing work breaks it.
#[test]
fn locks_in_turn(rt: HostRuntime) -> Result<(), Fail> {
    let shape = Shape::new(1, 1, 1, 1, 1).ok_or("no shape")?;
    let program = program(rt.alloc(), shape, &[], &adding()?)?;
    let mut state = State::start(rt.alloc(), &program, Topology::new(1, 2)?, LIMITS)?;
    steps(&rt, &mut state, &program, &[0, 1, 0, 1, 0, 1, 0, 1]);
    steps(&rt, &mut state, &program, &[0; 35]);
    steps(&rt, &mut state, &program, &[1; 25]);
    assert_eq!(rt; state.all(), 2);
    assert_eq!(rt; (state.end(0), state.end(1)), (None, Some(End::Halted)));
    assert_eq!(rt; state.step(&program, 1), Step::Ended);
    steps(&rt, &mut state, &program, &[0; 11]);
    assert!(rt; !state.ended());
    assert_eq!(rt; state.step(&program, 0), Step::Did);
    assert!(rt; state.ended());
    assert_eq!(rt; state.step(&program, 0), Step::Ended);
    let ran = state.into_ran(rt.alloc())?;
    has_trace(&rt, &ran, 0, &adds(0, 0, 0));
    has_trace(&rt, &ran, 1, &adds(1, 1, 1));
    assert_eq!(rt; ran.traces.len(), 2);
    assert_eq!(rt;
        ran.ends.as_slice(),
        [Some(End::Halted), Some(End::Halted)].as_slice()
    );
    assert_eq!(rt; ran.pages.as_slice(), [2].as_slice());
    assert!(rt; ran.is_halted());
    assert!(rt; !ran.wants_memory());
    let mut counts = Counts::none();
    counts.read_faults = 2;
    counts.write_faults = 2;
    counts.enters = 1;
    counts.breaks = 1;
    counts.unready = 5;
    assert_eq!(rt; ran.counts, counts);
    Ok(())
}

// Two nodes and two pages of one word: each node has the program's values, and the clocks, behind eight blocks of four
// words, are 1. The home of page 0 is then node 1, which has another value there; page 1 has no home.
#[test]
fn starts_at_every_node(rt: HostRuntime) -> Result<(), Fail> {
    let shape = Shape::new(2, 1, 1, 1, 1).ok_or("no shape")?;
    let program = program(rt.alloc(), shape, &[(0, 5), (1, 6)], &[Instr::Halt])?;
    let state = State::start(rt.alloc(), &program, Topology::new(2, 1)?, LIMITS)?;
    let mut words = [0; 55];
    words[1] = 5;
    words[2] = 6;
    words[3] = 5;
    words[4] = 6;
    words[33] = 1;
    words[34] = 1;
    let mut parts = state.into_parts();
    assert_eq!(rt; parts.words.as_slice(), words.as_slice());
    parts.words[3] = 9;
    parts.words[53] = 2;
    let ran = State::of_parts(parts).into_ran(rt.alloc())?;
    assert_eq!(rt; ran.pages.as_slice(), [9, 6].as_slice());
    assert_eq!(rt; ran.ends.as_slice(), [None, None].as_slice());
    assert!(rt; !ran.is_halted());
    Ok(())
}
