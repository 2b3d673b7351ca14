// A schedule over a state that took its memory first.
use crate::adding::{has_trace, storing};
use dsm_core::state::State;
use dsm_entry::entry::{Entry, Obj};
use dsm_isa::shape::Shape;
use dsm_local::end::End;
use dsm_protocol::limits::Limits;
use dsm_samples::entries::{load, pass, signal, store};
use dsm_samples::programs::program;
use dsm_twoway::after_start::after_start;
use dsm_words::topology::Topology;
use std::test::Fail;

// With room for thirty entries a processor that is alone does all that it has to do.
#[test]
fn takes_its_memory_first(rt: HostRuntime) -> Result<(), Fail> {
    let shape = Shape::new(1, 4, 0, 0, 0).ok_or("no shape")?;
    let program = program(rt.alloc(), shape, &[], &storing()?)?;
    let limits = Limits {
        turns: 10,
        looks: None,
    };
    let mut state = State::start(rt.alloc(), &program, Topology::new(1, 1)?, limits)?;
    state.ready(30)?;
    after_start(&mut state, &program, &[0; 30]);
    let ran = state.into_ran(rt.alloc())?;
    let entries = [
        store(2, 7),
        load(2, 7),
        Entry::Out { v: 7 },
        signal(Obj::Close, 0),
        pass(Obj::Close, 1),
    ];
    has_trace(&rt, &ran, 0, &entries);
    assert_eq!(rt; ran.traces.len(), 1);
    assert_eq!(rt; ran.ends.as_slice(), [Some(End::Halted)].as_slice());
    assert_eq!(rt; ran.pages.as_slice(), [0, 0, 7, 0].as_slice());
    Ok(())
}
