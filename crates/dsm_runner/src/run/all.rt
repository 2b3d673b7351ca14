// All workers in threads.
ghost use Rattle.std.specs.Prelude.{◌≡◌, ◌<◌, ◌≤◌, [], length, vec_len, vec_capacity, IfOk, None};
ghost use Rattle.dsm_core.specs.States.{setup_of};
ghost use Rattle.dsm_runner.specs.Outcomes.{IsOutcome, AllOver, NoneLooked};
ghost use Rattle.dsm_runner.specs.Workers.{AreWorkers, AreEnded};

use super::spread::{gather, rounds, spread};
use crate::gate::Gate;
use crate::shared::Shared;
use crate::worker::Worker;
use dsm_core::ran::Ran;
use dsm_entry::entry::NoMemory;
use dsm_isa::program::Program;
use dsm_protocol::limits::Limits;
use dsm_words::topology::Topology;
use std::alloc::Global;
use std::sync::Wait;
use std::sync::atomic::AtomicBool;
use std::thread;
use std::thread::Threads;

// As many flags that are not set.
fn flags(alloc: Global, count: usize) -> Result<Vec<AtomicBool>, NoMemory>
    ensures { IfOk result (λ v. vec_len v ≡ count) }
{
    let mut flags = Vec::new(alloc);
    for _i in 0..count {
        flags.push(AtomicBool::new(false))?;
    }
    Ok(flags)
}

// Runs all workers to their ends, each in a thread where one can be made.
fn all<R: Threads + Wait + Sync, G: Gate + Sync>(
    rt: &R,
    alloc: Global,
    shared: &Shared,
    program: &Program,
    gate: &G,
    workers: Vec<Worker>,
) -> Result<Vec<Worker>, NoMemory>
    requires workers { AreWorkers shared.now workers.items }
    requires program { shared.now.setup.program ≡ program.now }
    ensures workers { IfOk result (λ ws. AreWorkers shared.now ws.items) }
    ensures ended { IfOk result (λ ws. AreEnded ws.items) }
{
    let count = workers.len();
    let flags = flags(alloc, count)?;
    let flags = flags.as_slice();
    let mut places = Vec::new(alloc);
    places.reserve(count)?;
    let mut done = Vec::new(alloc);
    done.reserve(count)?;
    let done = thread::scope(
        thread::scope_env(),
        rt,
        |scope| -> Vec<Worker>
            requires { AreWorkers shared.now workers.items
                × (shared.now.setup.program ≡ program.now)
                × (length flags.now ≡ vec_len workers)
                × (places.items ≡ [])
                × (vec_len workers ≤ vec_capacity places)
                × (done.items ≡ [])
                × (vec_len workers ≤ vec_capacity done) }
            ensures { AreWorkers shared.entry.now result.items
                × AreEnded result.items }
        {
            let mut places = spread(rt, scope, shared, program, gate, flags, workers, places);
            rounds(rt, shared, program, gate, &mut places);
            gather(rt, shared, program, gate, places, done)
        },
    );
    Ok(done)
}

/// Runs the program with one thread for each processor, over one table. A processor whose thread could not be started is
/// stepped by the caller, in turn with the others of that kind. It returns where every processor comes to its end; a
/// processor that waits for what never comes waits forever. `gate` is called before each event.
pub fn run<R: Threads + Wait + Sync, G: Gate + Sync>(
    rt: &R,
    alloc: Global,
    program: &Program,
    t: Topology,
    limits: Limits,
    gate: &G,
) -> Result<Ran, NoMemory>
    requires { limits.looks ≡ None }
    ensures outcome { IfOk result (λ ran. IsOutcome (setup_of program.now t limits) ran) }
    ensures ended { IfOk result (λ ran. AllOver ran.ends) }
    ensures looked { IfOk result (λ ran. NoneLooked ran.ends) }
{
    let (shared, workers) = Shared::open(alloc, program, t, limits)?;
    let workers = all(rt, alloc, &shared, program, gate, workers)?;
    shared.close(alloc, workers)
}
