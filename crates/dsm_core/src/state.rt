// The running state of a cluster.
ghost use Rattle.std.specs.Prelude.{◌≡◌, ℕ, Some, length, slice_get, if◌then◌else◌};
ghost use Rattle.dsm_words.specs.Place.{lay_of, processors, total};
ghost use Rattle.dsm_machine.specs.declared.machine.Machine.{Machine as machine};
ghost use Rattle.dsm_machine.specs.Machines.{who};

mod acting;
mod leaving;
pub mod parts;
mod room;
mod starting;

use acting::act;
pub use acting::starves;
use dsm_isa::program::Program;
use dsm_local::end::End;
use dsm_machine::machine::Machine;
use dsm_protocol::limits::Limits;
use dsm_words::layout::Layout;

/// All words and all processors of a cluster that runs a program. It doesn't hold the program: each call is given it.
#[derive(Drop)]
pub struct State {
    lay: Layout,
    limits: Limits,
    words: Vec<u64>,
    machines: Vec<Machine>,
    // As many words as the layout has,
    ghost all_words: { length words.items ≡ total (lay_of lay) },
    // and as many machines as processors, each with its number.
    ghost all_machines: { length machines.items ≡ processors (lay_of lay) },
    ghost numbered: { (k : ℕ) (m : machine) → slice_get machines.items k ≡ Some m → who m ≡ record { lay = lay_of lay; p = k; limits = limits } },
}

/// What a step did.
#[derive(Clone, Copy, Debug, PartialEq, Eq)]
pub enum Step {
    /// The processor's next event.
    Did,
    /// Nothing, since the processor has ended.
    Ended,
    /// The processor's next event, in which it told all others to stop for want of memory.
    NoMemory,
}

impl State {
    ghost use Rattle.std.specs.Prelude.{◌↔◌, ◌<◌, List, map, IsTrue};
    ghost use Rattle.dsm_isa.specs.declared.instr.Instr.{Instr};
    ghost use Rattle.dsm_protocol.specs.Processors.{ending};
    ghost use Rattle.dsm_runs.specs.Clusters.{IsReached};
    ghost use Rattle.dsm_core.specs.Room.{rooms, UsesOne};
    ghost use Rattle.dsm_core.specs.States.{setup_in, cluster_in, IsFor, Stepped, HasNoRoom, AllEnded};

    /// One event of processor `p`, where it has not ended. It takes memory for one entry at most, and where there is
    /// none, the event is that of a processor without memory.
    pub fn step(&mut self, program: &Program, p: u32) -> Step
        requires p { p < processors (lay_of self.old.lay) }
        requires is_for { IsFor self.old program.now }
        ensures setup { setup_in self.new program.now ≡ setup_in self.old program.now }
        ensures is_for { IsFor self.new program.now }
        ensures step { Stepped (setup_in self.old program.now) (cluster_in self.old program.now.code) (cluster_in self.new program.now.code) p result }
        // Memory is wanting only where there was no room for an entry.
        ensures full { result ≡ Step.NoMemory → HasNoRoom self.old p }
        // Its trace loses room for one entry at most, and no other one loses any.
        ensures room { UsesOne p (rooms self.old) (rooms self.new) }
        // From a reached state it leads to a reached one, of which all promises hold.
        ensures reached { IsReached (setup_in self.old program.now) (cluster_in self.old program.now.code) → IsReached (setup_in self.new program.now) (cluster_in self.new program.now.code) }
    {
        let machine = &mut self.machines[p as usize];
        if machine.end().is_some() {
            return Step::Ended;
        }
        let code = program.code();
        let starved = starves(machine, code);
        act(&mut self.words, machine, code);
        event(starved)
    }

    /// Whether every processor has ended.
    pub fn ended(&self) -> bool
        ensures { (code : List Instr) → (IsTrue result ↔ AllEnded (cluster_in self.now code)) }
    {
        self.machines.iter().all(|machine| machine.end().is_some())
    }

    /// How processor `p` ended, and None exactly where it has not.
    pub fn end(&self, p: u32) -> Option<End>
        requires { p < processors (lay_of self.now.lay) }
        ensures { (code : List Instr) → slice_get (map ending (cluster_in self.now code).processors) p ≡ Some result }
    {
        self.machines[p as usize].end()
    }

    /// How many processors there are, 1 to 32.
    pub fn all(&self) -> u32
        ensures { result ≡ processors (lay_of self.now.lay) }
    {
        self.lay.t.all()
    }
}

/// What a step did that made an event.
fn event(starved: bool) -> Step
    ensures { result ≡ (if starved then Step.NoMemory else Step.Did) }
{
    if starved { Step::NoMemory } else { Step::Did }
}
