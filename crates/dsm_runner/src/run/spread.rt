// One thread for each worker.
ghost use Rattle.std.specs.Prelude.{◌≡◌, ◌<◌, ◌≤◌, ℕ, [], length, vec_len, vec_capacity};
ghost use Rattle.dsm_runner.specs.Workers.{IsWorker, AreWorkers, AreEnded};
ghost use Rattle.dsm_runner.specs.Places.{IsPlace, ArePlaces};

use super::{Place, WorkerOf, work};
use crate::drive::drive;
use crate::gate::Gate;
use crate::shared::Shared;
use crate::worker::Worker;
use dsm_isa::program::Program;
use std::snapshot::Snapshot;
use std::sync::Wait;
use std::sync::atomic::{AtomicBool, Ordering};
use std::thread::{Scope, Threads};

// A thread for one worker. Where none can be made, the worker comes back.
fn start<'s, E, R: Threads + Wait + Sync, G: Gate + Sync>(
    rt: &'s R,
    scope: &Scope<'s, E>,
    shared: &'s Shared,
    program: &'s Program,
    gate: &'s G,
    flag: &'s AtomicBool,
    number: u32,
    worker: Worker,
) -> Place
    requires worker { IsWorker shared.now number worker }
    requires program { shared.now.setup.program ≡ program.now }
    ensures { IsPlace shared.now number result }
{
    let task = move || -> Worker
        requires { IsWorker shared.now number worker × (shared.now.setup.program ≡ program.now) }
        ensures { IsWorker shared.entry.now number result }
    { work(rt, shared, program, gate, flag, number, worker) };
    let promise = WorkerOf {
        number,
        shared: Snapshot::of(shared),
    };
    match scope.spawn_with(promise, task) {
        Ok(handle) => Place::There(handle),
        Err(refused) => {
            flag.store(true, Ordering::SeqCst);
            Place::Here((refused.value)())
        }
    }
}

// A thread for each worker.
pub(crate) fn spread<'s, E, R: Threads + Wait + Sync, G: Gate + Sync>(
    rt: &'s R,
    scope: &Scope<'s, E>,
    shared: &'s Shared,
    program: &'s Program,
    gate: &'s G,
    flags: &'s [AtomicBool],
    workers: Vec<Worker>,
    mut places: Vec<Place>,
) -> Vec<Place>
    requires workers { AreWorkers shared.now workers.items }
    requires program { shared.now.setup.program ≡ program.now }
    requires flags { length flags.now ≡ vec_len workers }
    requires places { (places.items ≡ []) × (vec_len workers ≤ vec_capacity places) }
    ensures { ArePlaces shared.now result.items }
{
    let _ = &shared.table;
    for worker in workers {
        let n = places.len();
        let flag = &flags[n];
        let place = start(rt, scope, shared, program, gate, flag, n as u32, worker);
        places.push_reserved(place);
    }
    places
}

// One event of a worker that is here, if it has not ended. Whether there was one.
fn nudge<G: Gate>(
    shared: &Shared,
    program: &Program,
    gate: &G,
    steps: u64,
    place: &mut Place,
) -> bool
    requires program { shared.now.setup.program ≡ program.now }
    requires place { (n : ℕ) × IsPlace shared.now n place.old }
    ensures { (n : ℕ) → IsPlace shared.now n place.old → IsPlace shared.now n place.new }
{
    match place {
        Place::There(_) => false,
        Place::Here(worker) => {
            let machine = worker.machine();
            if machine.end().is_some() {
                return false;
            }
            gate.pass(worker.number(), machine.done(), steps);
            worker.step(shared, program);
            true
        }
    }
}

// Steps the workers that are here, in turn, until each has ended.
pub(crate) fn rounds<R: Wait, G: Gate>(
    rt: &R,
    shared: &Shared,
    program: &Program,
    gate: &G,
    places: &mut Vec<Place>,
)
    requires program { shared.now.setup.program ≡ program.now }
    requires places { ArePlaces shared.now places.old.items }
    ensures places { ArePlaces shared.now places.new.items }
{
    let mut steps = 0u64;
    for _ in rt.forever() {
        let mut any = false;
        for i in 0..places.len() {
            let place = &mut places[i];
            if nudge(shared, program, gate, steps, place) {
                any = true;
            }
        }
        if !any {
            break;
        }
        steps = steps.saturating_add(1);
    }
}

// The worker of a place.
fn back<R: Threads>(rt: &R, shared: &Shared, place: Place) -> Worker
    ensures { (n : ℕ) → IsPlace shared.now n place → IsWorker shared.now n result }
{
    let _ = shared;
    match place {
        Place::There(handle) => handle.join(rt),
        Place::Here(worker) => worker,
    }
}

// The workers of the places, each at its end.
pub(crate) fn gather<R: Threads + Wait, G: Gate>(
    rt: &R,
    shared: &Shared,
    program: &Program,
    gate: &G,
    places: Vec<Place>,
    mut workers: Vec<Worker>,
) -> Vec<Worker>
    requires program { shared.now.setup.program ≡ program.now }
    requires places { ArePlaces shared.now places.items }
    requires room { (workers.items ≡ []) × (vec_len places ≤ vec_capacity workers) }
    ensures workers { AreWorkers shared.now result.items }
    ensures ended { AreEnded result.items }
{
    for place in places {
        let worker = back(rt, shared, place);
        workers.push_reserved(drive(rt, shared, program, gate, worker));
    }
    workers
}
