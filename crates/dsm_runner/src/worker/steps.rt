// One step of a worker.
ghost use Rattle.std.specs.Prelude.{◌≡◌};
ghost use Rattle.dsm_machine.specs.Machines.{who, processor_in};
ghost use Rattle.dsm_runs.specs.Setups.{who_at};
ghost use Rattle.dsm_core.specs.declared.state.Step.TheVariants.{NoMemory};
ghost use Rattle.dsm_runner.specs.Helds.{processor_by};
ghost use Rattle.dsm_runner.specs.Steps.{IsStep};

use super::Worker;
use crate::shared::Shared;
use dsm_core::state::{Step, starves};
use dsm_isa::program::Program;
use dsm_machine::machine::Machine;

impl Worker {
    /// The number of its processor, from 0.
    pub fn number(&self) -> u32
        ensures { result ≡ self.now.number }
    {
        self.number
    }

    /// Its machine.
    pub fn machine(&self) -> &Machine
        ensures who { who result.now ≡ who_at self.now.setup self.now.number }
        ensures machine { processor_in result.now self.now.setup.program.code ≡ processor_by self.now }
    {
        &self.machine
    }

    /// One event of its processor, by one atomic step of its seat on the table, from whatever thread, without lock or wait.
    /// It takes memory for one entry at most, and where there is none, the event is that of a processor without memory.
    pub fn step(&mut self, shared: &Shared, program: &Program) -> Step
        requires table { self.old.table ≡ shared.now.table }
        requires program { self.old.setup.program ≡ program.now }
        ensures step { IsStep self.old self.new result }
        // Memory is wanting only where there was no room for an entry.
        ensures full { result ≡ NoMemory → self.old.spare ≡ 0 }
        ensures same { (self.new.table ≡ self.old.table) × (self.new.setup ≡ self.old.setup) × (self.new.number ≡ self.old.number) }
    {
        if self.machine.end().is_some() {
            return Step::Ended;
        }
        let code = program.code();
        let starved = starves(&mut self.machine, code);
        let Some(op) = self.machine.next(code) else {
            unreachable!()
        };
        if starved {
            let got = shared.starve(&mut self.seat, op);
            self.machine.after(code, got);
            return Step::NoMemory;
        }
        let got = shared.perform(&mut self.seat, op);
        self.machine.after(code, got);
        Step::Did
    }
}
