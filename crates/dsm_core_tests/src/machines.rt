// A processor alone, its next operations, and what their answers leave.
ghost use Rattle.std.specs.Prelude.{◌≡◌, ◌*◌, ◌<◌, OnOk};
ghost use Rattle.dsm_isa.specs.Rules.{ObjectsInside};
ghost use Rattle.dsm_protocol.specs.Own.{sizes_in};
ghost use Rattle.dsm_machine.specs.Machines.{who, HasRoom};

use dsm_entry::entry::{Entry, Obj};
use dsm_isa::code::Code;
use dsm_isa::instr::Instr;
use dsm_isa::shape::Shape;
use dsm_local::end::{End, Trap};
use dsm_machine::machine::Machine;
use dsm_protocol::counts::Counts;
use dsm_protocol::limits::Limits;
use dsm_samples::programs::{program, register};
use dsm_words::layout::Layout;
use dsm_words::op::Op;
use dsm_words::topology::Topology;
use std::process::Abort;
use std::test::Fail;

/// An event of processor 1: the operation that it is to make, and its answer.
#[derive(Clone, Copy)]
struct Event {
    op: Op,
    got: u64,
}

fn load(at: u64, got: u64) -> Event {
    Event {
        op: Op::Load { at },
        got,
    }
}

fn store(at: u64, v: u64) -> Event {
    Event {
        op: Op::Store { at, v },
        got: 0,
    }
}

fn swap(at: u64, got: u64) -> Event {
    Event {
        op: Op::Swap { at, v: 0 },
        got,
    }
}

fn exchange(at: u64, old: u64, new: u64, got: u64) -> Event {
    Event {
        op: Op::Exchange { at, old, new },
        got,
    }
}

/// A try of the turn at this place.
fn take(at: u64, got: u64) -> Event {
    exchange(at, 0, 2, got)
}

/// It tells all others to stop.
fn stop() -> Event {
    Event {
        op: Op::Exchange {
            at: 0,
            old: 0,
            new: 2,
        },
        got: 0,
    }
}

/// What the events left: how many instructions are done, and the counts.
#[derive(Clone, Copy)]
struct Left {
    done: u64,
    counts: Counts,
}

/// Room is asked for twice, which the second time is there, also where a turn is held.
fn prepare(rt: &impl Abort, machine: &mut Machine) -> Result<(), Fail>
    ensures who { who machine.new ≡ who machine.old }
    ensures room { OnOk result (HasRoom machine.new) }
{
    machine.ready()?;
    assert!(rt; machine.ready().is_ok());
    Ok(())
}

fn one_event(rt: &impl Abort, machine: &mut Machine, code: &Code, t: Event) -> Result<(), Fail>
    requires { ObjectsInside (sizes_in (who machine.old).lay) code.now }
    ensures { who machine.new ≡ who machine.old }
{
    prepare(rt, machine)?;
    assert!(rt; machine.end().is_none());
    assert_eq!(rt; machine.next(code), Some(t.op));
    machine.after(code, t.got);
    Ok(())
}

fn all_events(
    rt: &impl Abort,
    machine: &mut Machine,
    code: &Code,
    list: &[Event],
) -> Result<(), Fail>
    requires { ObjectsInside (sizes_in (who machine.old).lay) code.now }
{
    for t in list {
        one_event(rt, machine, code, *t)?;
    }
    Ok(())
}

/// The events of processor 1 of a cluster with one page of four words, a lock, a barrier and a flag, which runs this code; and
/// what they leave.
fn plays(
    rt: &(impl Abort + AllocGlobal),
    t: Topology,
    list: &[Instr],
    events: &[Event],
    trace: &[Entry],
    end: Option<End>,
) -> Result<Left, Fail>
    requires { 1 < t.nodes * t.procs }
{
    let alloc = rt.alloc();
    let lay = Layout::new(t, 1, 4, 1, 1, 1);
    let shape = Shape::new(1, 4, 1, 1, 1).ok_or("no shape")?;
    let program = program(alloc, shape, &[], list)?;
    let limits = Limits {
        turns: 4,
        looks: Some(2),
    };
    let mut machine = Machine::new(alloc, lay, 1, limits);
    all_events(rt, &mut machine, program.code(), events)?;
    assert_eq!(rt; machine.end(), end);
    let left = Left {
        done: machine.done(),
        counts: machine.counts(),
    };
    let written = machine.into_trace();
    assert_eq!(rt; written.len(), trace.len() as u64);
    for (k, entry) in trace.iter().enumerate() {
        assert_eq!(rt; written.get(k as u64), Some(*entry));
    }
    Ok(left)
}

// On one node of two processors the words stand at: the page 1, its twin's sign 9, the mappings 10, the directory 12, the
// update 13, the turn 17, that of the notices 18, the notices 19, those for the processors 20, the lock 24, the home 28.

// A lock that is free is passed, and an acquire finds no notices; one that is held, and then lost, is passed at the third
// try, or the looks are used up before.
#[test]
fn locks(rt: HostRuntime) -> Result<(), Fail> {
    let t = Topology::new(1, 2)?;
    let list = [Instr::Lock { l: 0 }];
    let o = Obj::Lock(0);
    let free = [
        load(24, 6),
        exchange(24, 6, 7, 6),
        take(18, 0),
        swap(19, 0),
        store(18, 0),
        swap(21, 0),
    ];
    let lost = [
        load(24, 2),
        exchange(24, 2, 3, 3),
        load(0, 0),
        load(24, 4),
        exchange(24, 4, 5, 4),
    ];
    let looked = [
        load(24, 1),
        load(0, 0),
        load(24, 2),
        exchange(24, 2, 3, 3),
        stop(),
    ];
    let pass = [Entry::Pass { o, c: 3 }];
    let left = plays(&rt, t, &list, &free, &pass, None)?;
    assert_eq!(rt; (left.done, left.counts.unready), (1, 0));
    let pass = [Entry::Pass { o, c: 2 }];
    let left = plays(&rt, t, &list, &lost, &pass, None)?;
    assert_eq!(rt; (left.done, left.counts.unready), (0, 1));
    let left = plays(&rt, t, &list, &looked, &[], Some(End::Looked))?;
    assert_eq!(rt; (left.done, left.counts.unready), (0, 2));
    Ok(())
}

// The first load of a page faults, and the second is one operation; the first store faults again, and its node, which is the
// only one, has the page alone from then on, and the store is one operation. Then an address is none.
#[test]
fn first_touches(rt: HostRuntime) -> Result<(), Fail> {
    let t = Topology::new(1, 2)?;
    let d = register(1)?;
    let a = register(2)?;
    let list = [
        Instr::Ld { d, a, k: 3 },
        Instr::Ld { d, a, k: 3 },
        Instr::St { s: d, a, k: 2 },
        Instr::Ld { d, a, k: 4 },
    ];
    let events = [
        take(17, 0),
        load(12, 0),
        load(28, 0),
        exchange(28, 0, 1, 0),
        store(13, 0),
        store(12, 1),
        load(12, 1),
        store(11, 1),
        store(17, 0),
        load(4, 6),
        load(4, 7),
        take(17, 0),
        load(12, 1),
        load(28, 1),
        load(12, 1),
        load(9, 0),
        store(12, 3),
        load(12, 3),
        store(12, 2),
        store(11, 2),
        store(17, 0),
        store(3, 7),
        stop(),
    ];
    let trace = [
        Entry::Load { w: 3, v: 6 },
        Entry::Load { w: 3, v: 7 },
        Entry::Store { w: 2, v: 7 },
    ];
    let kind = Trap::Address { w: 4 };
    let end = End::Trapped { at: 3, kind };
    let left = plays(&rt, t, &list, &events, &trace, Some(end))?;
    let mut counts = Counts::none();
    counts.read_faults = 1;
    counts.write_faults = 1;
    counts.enters = 1;
    assert_eq!(rt; (left.done, left.counts), (3, counts));
    Ok(())
}

// On two nodes of one processor each the words stand at: the mappings 19, the directory 21, the update of node 1 at 24, the
// turns 31, node 0's processor's pages that are no longer exclusive 41, the home 47. Node 0 has the page alone: its visit breaks
// that, and then another processor has the turn, which is tried until it is free.
#[test]
fn a_visit_breaks(rt: HostRuntime) -> Result<(), Fail> {
    let t = Topology::new(2, 1)?;
    let d = register(1)?;
    let list = [Instr::Ld { d, a: d, k: 0 }];
    let events = [
        take(32, 0),
        load(22, 0),
        load(47, 1),
        store(24, 0),
        store(22, 1),
        load(21, 2),
        load(22, 1),
        store(20, 3),
        store(32, 0),
        take(31, 1),
        take(31, 0),
        load(21, 2),
        load(19, 1),
        store(21, 1),
        store(31, 0),
        take(32, 1),
        take(32, 1),
    ];
    let left = plays(&rt, t, &list, &events, &[], None)?;
    let mut counts = Counts::none();
    counts.breaks = 1;
    assert_eq!(rt; (left.done, left.counts), (0, counts));
    Ok(())
}

// Where memory is wanting before its first event, it has one, which tells all others to stop.
#[test]
fn starves_at_once(rt: HostRuntime) -> Result<(), Fail> {
    let lay = Layout::new(Topology::new(1, 2)?, 1, 4, 1, 1, 1);
    let code = Code::new([Instr::Jmp { to: 0 }].to_vec(rt.alloc())?)?;
    let limits = Limits {
        turns: 4,
        looks: Some(2),
    };
    let mut machine = Machine::new(rt.alloc(), lay, 1, limits);
    machine.begin(&code);
    machine.starve();
    assert_eq!(rt; machine.next(&code), Some(stop().op));
    machine.after(&code, 0);
    assert_eq!(rt; machine.end(), Some(End::NoMemory));
    assert_eq!(rt; machine.done(), 0);
    assert_eq!(rt; machine.into_trace().len(), 0);
    Ok(())
}
