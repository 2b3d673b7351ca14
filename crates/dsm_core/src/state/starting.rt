// The state before any event.
ghost use Rattle.std.specs.Prelude.{◌≡◌, ℕ, ◌∷◌, List, Some, IfOk, map, flat_map, length, slice_get};
ghost use Rattle.std.specs.List.{range_with_len};
ghost use Rattle.dsm_isa.specs.declared.instr.Instr.{Instr};
ghost use Rattle.dsm_words.specs.Place.{lay_of, processors, total};
ghost use Rattle.dsm_machine.specs.declared.machine.Machine.{Machine as machine};
ghost use Rattle.dsm_protocol.specs.Own.{sizes_in};
ghost use Rattle.dsm_machine.specs.Machines.{who, processor_in};
ghost use Rattle.dsm_protocol.specs.Processors.{new_processor};
ghost use Rattle.dsm_runs.specs.Setups.{first_words as first_words_of, frames_of};
ghost use Rattle.dsm_core.specs.States.{setup_of};

use super::State;
use dsm_entry::entry::NoMemory;
use dsm_isa::program::Program;
use dsm_machine::machine::Machine;
use dsm_protocol::limits::Limits;
use dsm_words::item::Item;
use dsm_words::layout::Layout;
use dsm_words::topology::Topology;
use std::alloc::Global;

impl State {
    ghost use Rattle.dsm_runs.specs.Clusters.{start, IsReached};
    ghost use Rattle.dsm_core.specs.States.{setup_in, cluster_in, IsFor};

    /// The state of the program before any event.
    pub fn start(
        alloc: Global,
        program: &Program,
        t: Topology,
        limits: Limits,
    ) -> Result<State, NoMemory>
        ensures setup { IfOk result (λ st. setup_in st program.now ≡ setup_of program.now t limits) }
        ensures is_for { IfOk result (λ st. IsFor st program.now) }
        ensures start { IfOk result (λ st. cluster_in st program.now.code ≡ start (setup_of program.now t limits)) }
        ensures reached { IfOk result (λ st. IsReached (setup_of program.now t limits) (cluster_in st program.now.code)) }
    {
        let shape = program.shape();
        let lay = Layout::new(
            t,
            shape.pages,
            shape.words,
            shape.locks,
            shape.barriers,
            shape.flags,
        );
        let words = first_words(alloc, program, &lay)?;
        let machines = first_machines(alloc, lay, limits)?;
        Ok(State {
            lay,
            limits,
            words,
            machines,
        })
    }
}

/// The frames of one node at the start: the program's values, and 0 where it names none.
fn first_frames(alloc: Global, program: &Program, lay: &Layout) -> Result<Vec<u64>, NoMemory>
    requires { sizes_in (lay_of lay.now) ≡ program.now.shape }
    ensures { IfOk result (λ frames. frames.items ≡ frames_of (lay_of lay.now) program.now.init) }
{
    let size = (lay.pages * lay.words) as usize;
    let mut frames = Vec::with_capacity(alloc, size)?;
    frames.resize(size, 0)?;
    for word in program.init() {
        frames[word.0 as usize] = word.1;
    }
    Ok(frames)
}

/// The stop word, and these frames for each node; there is room for all other words.
fn with_frames(alloc: Global, lay: &Layout, frames: &[u64]) -> Result<Vec<u64>, NoMemory>
    ensures { IfOk result (λ words. words.items ≡ 0 ∷ flat_map (λ n. frames.now) (range_with_len 0 lay.now.t.nodes)) }
{
    let mut words = Vec::with_capacity(alloc, lay.len() as usize)?;
    words.push(0)?;
    for _ in 0..lay.t.nodes {
        words.extend_from_slice(frames)?;
    }
    Ok(words)
}

/// The words at the start. The time grows with the number of words.
fn first_words(alloc: Global, program: &Program, lay: &Layout) -> Result<Vec<u64>, NoMemory>
    requires { sizes_in (lay_of lay.now) ≡ program.now.shape }
    ensures long { IfOk result (λ words. length words.items ≡ total (lay_of lay.now)) }
    ensures words { IfOk result (λ words. (limits : Limits) → words.items ≡ first_words_of (setup_of program.now lay.now.t limits)) }
{
    let frames = first_frames(alloc, program, lay)?;
    let mut words = with_frames(alloc, lay, &frames)?;
    words.resize(lay.place(Item::Clock { n: 0 }) as usize, 0)?;
    words.resize(lay.place(Item::Turn { n: 0, g: 0 }) as usize, 1)?;
    words.resize(lay.len() as usize, 0)?;
    Ok(words)
}

/// A machine for each processor, which has done nothing.
fn first_machines(alloc: Global, lay: Layout, limits: Limits) -> Result<Vec<Machine>, NoMemory>
    ensures all { IfOk result (λ machines. length machines.items ≡ processors (lay_of lay)) }
    ensures numbered { IfOk result (λ machines. (k : ℕ) (m : machine) → slice_get machines.items k ≡ Some m → who m ≡ record { lay = lay_of lay; p = k; limits = limits }) }
    ensures new { IfOk result (λ machines. (code : List Instr) → map (λ m. processor_in m code) machines.items ≡ map (λ p. new_processor (record { lay = lay_of lay; p = p; limits = limits }) code) (range_with_len 0 (processors (lay_of lay)))) }
{
    let all = lay.t.all();
    let mut machines = Vec::with_capacity(alloc, all as usize)?;
    for p in 0..all {
        machines.push(Machine::new(alloc, lay, p, limits))?;
    }
    Ok(machines)
}
