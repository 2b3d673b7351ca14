// One worker to its end.
ghost use Rattle.std.specs.Prelude.{◌≡◌, IsSome};
ghost use Rattle.dsm_protocol.specs.Processors.{ending};
ghost use Rattle.dsm_runner.specs.Helds.{processor_by};
ghost use Rattle.dsm_runner.specs.Workers.{IsWorker};

use crate::gate::Gate;
use crate::shared::Shared;
use crate::worker::Worker;
use dsm_isa::program::Program;
use std::sync::Wait;

/// Steps the worker to its end, where it comes to one.
pub fn drive<R: Wait, G: Gate>(
    rt: &R,
    shared: &Shared,
    program: &Program,
    gate: &G,
    mut worker: Worker,
) -> Worker
    requires worker { IsWorker shared.now worker.number worker }
    requires program { shared.now.setup.program ≡ program.now }
    ensures worker { IsWorker shared.now worker.number result }
    ensures ended { IsSome (ending (processor_by result)) }
{
    let mut steps = 0u64;
    for _ in rt.forever() {
        let machine = worker.machine();
        if machine.end().is_some() {
            break;
        }
        gate.pass(worker.number(), machine.done(), steps);
        worker.step(shared, program);
        steps = steps.saturating_add(1);
    }
    worker
}
