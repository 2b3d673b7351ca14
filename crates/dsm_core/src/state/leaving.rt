// What a state leaves.
ghost use Rattle.std.specs.Prelude.{◌≡◌, List, IfOk, map};
ghost use Rattle.dsm_isa.specs.declared.instr.Instr.{Instr};
ghost use Rattle.dsm_isa.specs.ProgramText.{ProgramText};
ghost use Rattle.dsm_machine.specs.Machines.{processor_in};

use super::State;
use crate::ran::Ran;
use dsm_entry::entry::NoMemory;
use dsm_entry::trace::Trace;
use dsm_local::end::End;
use dsm_machine::machine::Machine;
use dsm_protocol::counts::Counts;
use std::alloc::Global;

impl State {
    ghost use Rattle.dsm_protocol.specs.Processors.{ending};
    ghost use Rattle.dsm_runs.specs.Clusters.{IsReached};
    ghost use Rattle.dsm_runs.specs.Outcomes.{ran_of, total_counts};
    ghost use Rattle.dsm_runs.specs.Promises.{Promises};
    ghost use Rattle.dsm_runs.specs.Setups.{IsSetup};
    ghost use Rattle.dsm_core.specs.States.{setup_in, cluster_in, IsFor};

    /// What the state leaves. The traces are moved and not copied.
    pub fn into_ran(self, alloc: Global) -> Result<Ran, NoMemory>
        ensures shows { IfOk result (λ ran. (program : ProgramText) → IsFor self program → ran ≡ ran_of (setup_in self program) (cluster_in self program.code)) }
        // Of a reached state the promises hold that every cluster keeps.
        ensures promises { IfOk result (λ ran. (program : ProgramText) → IsFor self program → IsSetup (setup_in self program) → IsReached (setup_in self program) (cluster_in self program.code) → Promises (setup_in self program) ran) }
    {
        let pages = self.pages(alloc)?;
        let ends = self.ends(alloc)?;
        let counts = self.counts();
        let traces = traces_of(alloc, self.machines)?;
        Ok(Ran {
            traces,
            ends,
            pages,
            counts,
        })
    }

    /// The words of memory in order of their addresses, each as its home has it.
    fn pages(&self, alloc: Global) -> Result<Vec<u64>, NoMemory>
        ensures { IfOk result (λ words. (program : ProgramText) → IsFor self.now program → words.items ≡ (ran_of (setup_in self.now program) (cluster_in self.now program.code)).pages) }
    {
        let size = self.lay.pages * self.lay.words;
        let mut pages = Vec::with_capacity(alloc, size as usize)?;
        for w in 0..size {
            pages.push(self.words[self.lay.master(&self.words, w) as usize])?;
        }
        Ok(pages)
    }

    /// The end of each processor.
    fn ends(&self, alloc: Global) -> Result<Vec<Option<End>>, NoMemory>
        ensures { IfOk result (λ ends. (code : List Instr) → ends.items ≡ map ending (cluster_in self.now code).processors) }
    {
        let mut ends = Vec::with_capacity(alloc, self.machines.len())?;
        for machine in self.machines.iter() {
            ends.push(machine.end())?;
        }
        Ok(ends)
    }

    /// All counts of all processors together.
    fn counts(&self) -> Counts
        ensures { (code : List Instr) → result ≡ total_counts (cluster_in self.now code).processors }
    {
        let mut counts = Counts::none();
        for machine in &self.machines {
            counts = counts.add(machine.counts());
        }
        counts
    }
}

/// The traces of machines that are no longer wanted.
fn traces_of(alloc: Global, machines: Vec<Machine>) -> Result<Vec<Trace>, NoMemory>
    ensures { IfOk result (λ traces. (code : List Instr) → map (λ t. t.list) traces.items ≡ map (λ m. m.own.trace) (map (λ m. processor_in m code) machines.items)) }
{
    let mut traces = Vec::with_capacity(alloc, machines.len())?;
    for machine in machines {
        traces.push(machine.into_trace())?;
    }
    Ok(traces)
}
