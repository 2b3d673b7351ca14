// What the events of a schedule leave in the pages.
ghost use Rattle.std.specs.Prelude.{◌<◌, All, IfOk};

use dsm_isa::instr::Instr;
use dsm_isa::shape::Shape;
use dsm_local::end::End;
use dsm_meta::after::pages_after;
use dsm_protocol::limits::Limits;
use dsm_samples::programs::{program, register};
use dsm_words::topology::Topology;
use std::alloc::Global;
use std::test::Fail;

/// Whose event is event `k`: five of processor 0, 26 of processor 1, and then one of each in turn.
fn overtaking_at(k: u32) -> u32
    ensures { result < 2 }
{
    match k {
        0..=4 => 0,
        5..=30 => 1,
        _ => u32::from(k % 2 == 0),
    }
}

/// These events, 400 of each in turn.
fn overtaking(alloc: Global) -> Result<Vec<u32>, Fail>
    ensures { IfOk result (λ list. All (λ p. p < 2) list.items) }
{
    let mut list = Vec::new(alloc);
    for k in 0..831 {
        list.push(overtaking_at(k))?;
    }
    Ok(list)
}

// Each processor stores its number to the word of that number. Processor 0's node becomes the page's home with its fifth
// event. Before it has registered, the other node enters; processor 0's fault then breaks that node's copy.
#[test]
fn a_home_is_overtaken(rt: HostRuntime) -> Result<(), Fail> {
    let a = register(1)?;
    let list = [Instr::Me { d: a }, Instr::St { s: a, a, k: 0 }, Instr::Halt];
    let shape = Shape::new(1, 4, 0, 0, 0).ok_or("no shape")?;
    let program = program(rt.alloc(), shape, &[], &list)?;
    let limits = Limits {
        turns: 10,
        looks: None,
    };
    let schedule = overtaking(rt.alloc())?;
    let state = pages_after(
        rt.alloc(),
        &program,
        Topology::new(2, 1)?,
        limits,
        &schedule,
    )?;
    assert!(rt; state.ended());
    assert_eq!(rt; state.end(0), Some(End::Halted));
    assert_eq!(rt; state.end(1), Some(End::Halted));
    let ran = state.into_ran(rt.alloc())?;
    assert_eq!(rt; ran.pages.as_slice(), [0, 1, 0, 0].as_slice());
    assert_eq!(rt; ran.counts.enters, 1);
    assert_eq!(rt; ran.counts.breaks, 1);
    Ok(())
}
