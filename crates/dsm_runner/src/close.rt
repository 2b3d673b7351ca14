// What the steps of the workers leave.
ghost use Rattle.std.specs.Prelude.{◌≡◌, ◌<◌, IfOk, List, map, length};
ghost use Rattle.std.specs.Mem.Slots.{slots_items, IsFull};
ghost use Rattle.dsm_runner.specs.Sights.{procs_of};
ghost use Rattle.dsm_runner.specs.Machines.{joined_sight, AreGiven};
ghost use Rattle.dsm_runner.specs.Outcomes.{IsOutcome, IsOf};
ghost use Rattle.dsm_runner.specs.Workers.{AreWorkers, given_to};

use crate::rule::Next;
use crate::shared::{Shared, Words};
use crate::view::View;
use crate::worker::Worker;
use atomic_table::{Closed, Seat};
use dsm_core::ran::Ran;
use dsm_core::state::State;
use dsm_core::state::parts::Parts;
use dsm_entry::entry::NoMemory;
use dsm_machine::machine::Machine;
use std::alloc::Global;

// The first seat with all others taken in, and the machines.
#[derive(Drop)]
struct Collected {
    seat: Seat<(), View>,
    machines: Vec<Machine>,
}

// The first seat takes in all others.
fn collect(table: &Words, alloc: Global, workers: Vec<Worker>) -> Result<Collected, NoMemory>
    requires words { 0 < table.now.shared.table_id.words }
    requires some { 0 < procs_of table.now.shared.key }
    requires workers { AreWorkers (record { table = table.now.shared.table_id; setup = table.now.shared.key }) workers.items }
    ensures seat { IfOk result (λ r. r.seat.table_id ≡ table.now.shared.table_id) }
    ensures view { IfOk result (λ r. r.seat.me.0 ≡ joined_sight table.now.shared.key (map given_to workers.items)) }
    ensures count { IfOk result (λ r. length r.machines.items ≡ length workers.items) }
    ensures machines { IfOk result (λ r. AreGiven table.now.shared.key (map given_to workers.items) r.machines.items) }
{
    let mut workers = workers;
    let mut machines = Vec::with_capacity(alloc, workers.len())?;
    let Worker {
        machine,
        mut seat,
        ..
    } = workers.remove(0);
    machines.push(machine)?;
    for worker in workers {
        let Worker {
            machine,
            seat: other,
            ..
        } = worker;
        table.shared.join_seat::<Next>(&mut seat, other);
        machines.push(machine)?;
    }
    Ok(Collected { seat, machines })
}

// The words of a table that is closed.
fn words_of(alloc: Global, closed: &Closed<(), Global>) -> Result<Vec<u64>, NoMemory>
    requires { IsFull closed.now.words }
    ensures { IfOk result (λ v. v.items ≡ slots_items closed.now.words) }
{
    let mut words = Vec::with_capacity(alloc, closed.words.len())?;
    for i in 0..closed.words.len() {
        words.push(closed.word(i))?;
    }
    Ok(words)
}

impl Shared {
    /// What the workers' steps leave. The steps were a list of events from the start.
    pub fn close(self, alloc: Global, workers: Vec<Worker>) -> Result<Ran, NoMemory>
        requires { AreWorkers self workers.items }
        ensures outcome { IfOk result (λ ran. IsOutcome self.setup ran) }
        ensures workers { IfOk result (λ ran. IsOf workers.items ran) }
    {
        let Shared { table, lay, limits } = self;
        let Collected { seat, machines } = collect(&table, alloc, workers)?;
        let closed = table.close_with(seat);
        let words = words_of(alloc, &closed);
        closed.free();
        let words = words?;
        let state = State::of_parts(Parts {
            lay,
            limits,
            words,
            machines,
        });
        state.into_ran(alloc)
    }
}
