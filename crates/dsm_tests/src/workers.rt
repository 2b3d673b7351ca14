// Threads that step the processors of one table.
ghost use Rattle.std.specs.Prelude.{◌≡◌};
ghost use Rattle.dsm_runner.specs.Workers.{IsWorker, AreWorkers};

use crate::asking::printed;
use crate::texts::NEIGHBOURS;
use dsm_core::ran::Ran;
use dsm_core::state::Step;
use dsm_flat::judge::judge;
use dsm_flat::verdict::Verdict;
use dsm_io::MemSource;
use dsm_isa::instr::Instr;
use dsm_isa::program::Program;
use dsm_isa::shape::Shape;
use dsm_local::end::End;
use dsm_protocol::limits::Limits;
use dsm_runner::gate::{Gate, OpenGate};
use dsm_runner::run::run;
use dsm_runner::shared::Shared;
use dsm_runner::worker::Worker;
use dsm_samples::programs::{program, register};
use dsm_top::reading::read_program;
use dsm_words::topology::Topology;
use std::alloc::Global;
use std::sync::{Barrier, Wait};
use std::test::Fail;
use std::thread;
use std::thread::Threads;

const LIMITS: Limits = Limits {
    turns: 10,
    looks: None,
};

// Each processor stores its number and 5 more to the word of its number, and halts.
fn stores(alloc: Global) -> Result<Program, Fail> {
    let p = register(1)?;
    let v = register(2)?;
    let list = [
        Instr::Me { d: p },
        Instr::Addi { d: v, a: p, k: 5 },
        Instr::St { s: v, a: p, k: 0 },
        Instr::Halt,
    ];
    let shape = Shape::new(1, 4, 0, 0, 0).ok_or("no shape")?;
    program(alloc, shape, &[], &list)
}

#[test]
fn four_threads_store(rt: HostRuntime) -> Result<(), Fail> {
    let program = stores(rt.alloc())?;
    let t = Topology::new(2, 2)?;
    let ran = run(&rt, rt.alloc(), &program, t, LIMITS, &OpenGate)?;
    assert_eq!(rt; ran.ends.len(), 4);
    for end in &ran.ends {
        assert_eq!(rt; *end, Some(End::Halted));
    }
    assert_eq!(rt; ran.pages.as_slice(), [5, 6, 7, 8].as_slice());
    Ok(())
}

// All threads meet before their first events.
#[derive(Drop)]
struct Meet<'a, R: Wait> {
    rt: &'a R,
    all: Barrier,
}

impl<'a, R: Wait> Gate for Meet<'a, R> {
    fn pass(&self, _p: u32, _done: u64, steps: u64) {
        if steps == 0 {
            self.all.wait(self.rt);
        }
    }
}

#[test]
fn four_threads_meet(rt: HostRuntime) -> Result<(), Fail> {
    let program = stores(rt.alloc())?;
    let t = Topology::new(2, 2)?;
    let gate = Meet {
        rt: &rt,
        all: Barrier::new(4),
    };
    let ran = run(&rt, rt.alloc(), &program, t, LIMITS, &gate)?;
    assert!(rt; ran.is_halted());
    assert_eq!(rt; ran.pages.as_slice(), [5, 6, 7, 8].as_slice());
    Ok(())
}

#[test]
fn closes_at_once(rt: HostRuntime) -> Result<(), Fail> {
    let program = stores(rt.alloc())?;
    let t = Topology::new(2, 2)?;
    let (shared, workers) = Shared::open(rt.alloc(), &program, t, LIMITS)?;
    let ran = shared.close(rt.alloc(), workers)?;
    assert_eq!(rt; ran.ends.as_slice(), [None, None, None, None].as_slice());
    assert_eq!(rt; ran.pages.as_slice(), [0, 0, 0, 0].as_slice());
    Ok(())
}

// Steps a worker to its end.
fn finish<R: Wait>(rt: &R, shared: &Shared, program: &Program, number: usize, worker: &mut Worker)
    requires worker { IsWorker shared.now number worker.old }
    requires program { shared.now.setup.program ≡ program.now }
    ensures { IsWorker shared.now number worker.new }
{
    let _ = number;
    for _ in rt.forever() {
        if worker.step(shared, program) == Step::Ended {
            break;
        }
    }
}

// Each worker in a thread of its own, which all meet before the first step.
fn in_threads<R: Threads + Wait + Sync>(
    rt: &R,
    shared: &Shared,
    program: &Program,
    workers: &mut [Worker],
)
    requires workers { AreWorkers shared.now workers.old }
    requires program { shared.now.setup.program ≡ program.now }
    ensures { AreWorkers shared.now workers.new }
{
    let all = Barrier::new(4);
    thread::for_each_mut(
        rt,
        workers,
        4,
        &|number: usize, worker: &mut Worker|
            requires { IsWorker shared.now number worker.now × (shared.now.setup.program ≡ program.now) }
            ensures { IsWorker shared.entry.now number worker.exit.now }
        {
            all.wait(rt);
            finish(rt, shared, program, number, worker);
        },
    );
}

#[test]
fn steps_from_other_threads(rt: HostRuntime) -> Result<(), Fail> {
    let program = stores(rt.alloc())?;
    let t = Topology::new(2, 2)?;
    let (shared, mut workers) = Shared::open(rt.alloc(), &program, t, LIMITS)?;
    in_threads(&rt, &shared, &program, workers.as_mut_slice());
    for worker in &workers {
        assert_eq!(rt; worker.machine().end(), Some(End::Halted));
    }
    let ran = shared.close(rt.alloc(), workers)?;
    assert_eq!(rt; ran.pages.as_slice(), [5, 6, 7, 8].as_slice());
    Ok(())
}

// What the program of a text leaves whose processors are stepped by threads of the test, on two nodes of two processors.
fn left_by_threads<R: Threads + Wait + Sync>(
    rt: &R,
    alloc: Global,
    text: &[u8],
) -> Result<Ran, Fail> {
    let mut source = MemSource::new(text.to_vec(alloc)?, 4096, Vec::new(alloc));
    let program = read_program(alloc, &mut source)?;
    let t = Topology::new(2, 2)?;
    let (shared, mut workers) = Shared::open(alloc, &program, t, LIMITS)?;
    in_threads(rt, &shared, &program, workers.as_mut_slice());
    Ok(shared.close(alloc, workers)?)
}

// Each prints what its neighbour stored to its own word of their page, and that word is ordered.
#[test]
fn neighbours_step_from_other_threads(rt: HostRuntime) -> Result<(), Fail> {
    let ran = left_by_threads(&rt, rt.alloc(), NEIGHBOURS)?;
    assert!(rt; ran.is_halted());
    assert!(rt; ran.traces.len() == 4);
    for (trace, wanted) in ran.traces.iter().zip(&[101, 102, 103, 100]) {
        assert_eq!(rt;
            printed(rt.alloc(), trace)?.as_slice(),
            [*wanted].as_slice()
        );
    }
    assert_eq!(rt;
        ran.pages.as_slice(),
        [100, 101, 102, 103, 0, 0, 0, 0].as_slice()
    );
    assert_eq!(rt;
        judge(rt.alloc(), ran.traces.as_slice(), 0)?,
        Verdict::Ordered
    );
    Ok(())
}
