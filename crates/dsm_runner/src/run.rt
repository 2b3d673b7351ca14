// One thread for each processor.
ghost use Rattle.std.specs.Prelude.{◌≡◌};
ghost use Rattle.dsm_runner.specs.Workers.{IsWorker};

use crate::drive::drive;
use crate::gate::Gate;
use crate::shared::Shared;
use crate::worker::Worker;
use dsm_isa::program::Program;
use std::snapshot::Snapshot;
use std::sync::Wait;
use std::sync::atomic::{AtomicBool, Ordering};
use std::thread;
use std::thread::{Promise, PromisedHandle, Threads};

/// The worker of this number comes back.
#[derive(Drop)]
pub struct WorkerOf {
    number: u32,
    shared: Snapshot<Shared>,
}

impl Promise<Worker> for WorkerOf {
    ghost use Rattle.dsm_runner.specs.Workers.{IsWorker};

    ghost kept_by = { λ p w. IsWorker p.shared.value p.number w };
}

// Gives the worker back at once where the flag is set.
fn work<R: Wait, G: Gate>(
    rt: &R,
    shared: &Shared,
    program: &Program,
    gate: &G,
    flag: &AtomicBool,
    number: u32,
    worker: Worker,
) -> Worker
    requires worker { IsWorker shared.now number worker }
    requires program { shared.now.setup.program ≡ program.now }
    ensures { IsWorker shared.now number result }
{
    let _ = number;
    if flag.load(Ordering::SeqCst) {
        return worker;
    }
    drive(rt, shared, program, gate, worker)
}

/// Where a worker is.
#[derive(Drop)]
pub enum Place {
    There(PromisedHandle<Worker, WorkerOf>),
    Here(Worker),
}

mod all;
mod spread;

pub use all::run;
