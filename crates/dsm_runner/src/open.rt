// The table and its workers.
ghost use Rattle.std.specs.Prelude.{◌≡◌, ◌*◌, suc, IfOk, [], length};
ghost use Rattle.dsm_words.specs.Place.{lay_of};
ghost use Rattle.dsm_runs.specs.Setups.{lay_in};
ghost use Rattle.dsm_runs.specs.Clusters.{start};
ghost use Rattle.dsm_core.specs.States.{setup_of};
ghost use Rattle.dsm_runner.specs.Sights.{first_sight, first_with, procs_of};
ghost use Rattle.dsm_runner.specs.Machines.{AreFresh};
ghost use Rattle.dsm_runner.specs.Workers.{AreLater, AreNew};

use crate::rule::{Key, Next};
use crate::shared::{Shared, Words};
use crate::view::View;
use crate::worker::Worker;
use atomic_table::Seat;
use dsm_core::state::State;
use dsm_core::state::parts::Parts;
use dsm_entry::entry::NoMemory;
use dsm_isa::program::Program;
use dsm_machine::machine::Machine;
use dsm_protocol::limits::Limits;
use dsm_words::topology::Topology;
use std::alloc::Global;
use std::snapshot::Snapshot;

// The words and the machines before any event.
fn first_parts(
    alloc: Global,
    program: &Program,
    t: Topology,
    limits: Limits,
) -> Result<Parts, NoMemory>
    ensures lay { IfOk result (λ x. lay_of x.lay ≡ lay_in (setup_of program.now t limits)) }
    ensures words { IfOk result (λ x. x.words.items ≡ (start (setup_of program.now t limits)).words) }
    ensures count { IfOk result (λ x. length x.machines.items ≡ t.nodes * t.procs) }
    ensures fresh { IfOk result (λ x. AreFresh (setup_of program.now t limits) 0 x.machines.items) }
{
    let state = State::start(alloc, program, t, limits)?;
    Ok(state.into_parts())
}

// The workers of the processors from 1 on, in order. The first seat makes their seats.
fn later_workers(
    shared: &Shared,
    alloc: Global,
    first: &mut Seat<(), View>,
    machines: Vec<Machine>,
) -> Result<Vec<Worker>, NoMemory>
    requires table { first.old.table_id ≡ shared.now.table }
    requires view { first.old.me ≡ (first_sight shared.now.setup, []) }
    requires fresh { AreFresh shared.now.setup 1 machines.items }
    requires all { suc (length machines.items) ≡ procs_of shared.now.setup }
    ensures first { (first.new.table_id ≡ first.old.table_id) × (first.new.id ≡ first.old.id) }
    ensures view { IfOk result (λ _. first.new.me ≡ (first_with shared.now.setup (procs_of shared.now.setup), [])) }
    ensures count { IfOk result (λ ws. suc (length ws.items) ≡ procs_of shared.now.setup) }
    ensures each { IfOk result (λ ws. AreLater shared.now ws.items) }
{
    let table = &shared.table.shared;
    let mut workers = Vec::with_capacity(alloc, machines.len())?;
    for machine in machines {
        let number = workers.len() as u32 + 1;
        let seat = table.split_seat::<Next>(first);
        workers.push(Worker {
            number,
            machine,
            seat,
        })?;
    }
    Ok(workers)
}

impl Shared {
    /// The table, and a worker for each processor, in order, which has done nothing.
    pub fn open(
        alloc: Global,
        program: &Program,
        t: Topology,
        limits: Limits,
    ) -> Result<(Shared, Vec<Worker>), NoMemory>
        ensures setup { IfOk result (λ r. r.0.setup ≡ setup_of program.now t limits) }
        ensures count { IfOk result (λ r. length r.1.items ≡ t.nodes * t.procs) }
        ensures each { IfOk result (λ r. AreNew r.0 r.1.items) }
    {
        let Parts {
            lay,
            words,
            mut machines,
            ..
        } = first_parts(alloc, program, t, limits)?;
        let key = Key {
            program: Snapshot::of(program),
            t,
            limits,
        };
        let (table, mut seat) = Words::of_words(alloc, words.as_slice(), &key)?;
        let shared = Shared { table, lay, limits };
        let machine = machines.remove(0);
        let mut workers = later_workers(&shared, alloc, &mut seat, machines)?;
        workers.insert(
            0,
            Worker {
                number: 0,
                machine,
                seat,
            },
        )?;
        Ok((shared, workers))
    }
}
