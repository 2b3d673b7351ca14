ghost use Rattle.std.specs.Prelude.{◌≡◌, ◌<◌, ◌≤◌, List, IfOk, length};
ghost use Rattle.dsm_isa.specs.declared.instr.Instr.{Instr};
ghost use Rattle.dsm_words.specs.Place.{lay_of, processors};
ghost use Rattle.dsm_runs.specs.Clusters.{start};
ghost use Rattle.dsm_core.specs.States.{setup_of, setup_in, cluster_in, IsFor};
ghost use Rattle.dsm_sched.specs.Schedules.{running as running_in_order, Leads, Moves, Simulated};

use crate::kind::Kind;
use dsm_core::ran::Ran;
use dsm_core::state::State;
use dsm_entry::entry::NoMemory;
use dsm_isa::program::Program;
use dsm_protocol::limits::Limits;
use dsm_words::topology::Topology;
use rand_core::SeedableRng;
use rand_core::utils::NextWord;
use rand_xoshiro::SplitMix64;
use std::alloc::Global;

/// What a simulated run leaves.
#[derive(Drop)]
pub struct Simmed {
    pub ran: Ran,
    /// Whether all events that were allowed were made and some processor has not ended.
    pub cut: bool,
}

/// Runs the program on one thread, event by event as the schedule says: `steps` events, or fewer where all processors
/// have ended.
pub fn sim(
    alloc: Global,
    program: &Program,
    t: Topology,
    limits: Limits,
    kind: Kind,
    steps: u64,
) -> Result<Simmed, NoMemory>
    ensures { IfOk result (λ x. Simulated kind (setup_of program.now t limits) steps x.ran x.cut) }
{
    let mut state = State::start(alloc, program, t, limits)?;
    let running = all_running(alloc, &state)?;
    go(&mut state, program, running, kind, steps);
    let cut = !state.ended();
    Ok(Simmed {
        ran: state.into_ran(alloc)?,
        cut,
    })
}

/// The processors that have not ended, ascending.
fn all_running(alloc: Global, state: &State) -> Result<Vec<u32>, NoMemory>
    ensures { (code : List Instr) → IfOk result (λ running. running.items ≡ running_in_order (cluster_in state.now code)) }
{
    let mut running = Vec::new(alloc);
    for p in 0..state.all() {
        if state.end(p).is_none() {
            running.push(p)?;
        }
    }
    Ok(running)
}

/// Makes `steps` events in this order, or fewer where all processors have ended.
fn go(state: &mut State, program: &Program, running: Vec<u32>, kind: Kind, steps: u64)
    requires is_for { IsFor state.old program.now }
    requires start { cluster_in state.old program.now.code ≡ start (setup_in state.old program.now) }
    requires running { running.items ≡ running_in_order (cluster_in state.old program.now.code) }
    ensures setup { setup_in state.new program.now ≡ setup_in state.old program.now }
    ensures is_for { IsFor state.new program.now }
    ensures leads { Leads kind (setup_in state.old program.now) steps (cluster_in state.new program.now.code) }
{
    match kind {
        Kind::Round => go_round(state, program, running, steps),
        Kind::Mixed { seed } => go_mixed(state, program, running, seed, steps),
    }
}

/// Makes `steps` events in cyclic order, or fewer where all processors have ended.
fn go_round(state: &mut State, program: &Program, mut running: Vec<u32>, steps: u64)
    requires is_for { IsFor state.old program.now }
    requires start { cluster_in state.old program.now.code ≡ start (setup_in state.old program.now) }
    requires running { running.items ≡ running_in_order (cluster_in state.old program.now.code) }
    ensures setup { setup_in state.new program.now ≡ setup_in state.old program.now }
    ensures is_for { IsFor state.new program.now }
    ensures leads { Leads Kind.Round (setup_in state.old program.now) steps (cluster_in state.new program.now.code) }
{
    let mut made = 0;
    let mut from = 0;
    while made < steps {
        if running.is_empty() {
            return;
        }
        let at = in_round(from, running.len());
        from = step_one(state, program, &mut running, at);
        made += 1;
    }
}

/// Makes `steps` events in the order that the seed draws, or fewer where all processors have ended.
fn go_mixed(state: &mut State, program: &Program, mut running: Vec<u32>, seed: u64, steps: u64)
    requires is_for { IsFor state.old program.now }
    requires start { cluster_in state.old program.now.code ≡ start (setup_in state.old program.now) }
    requires running { running.items ≡ running_in_order (cluster_in state.old program.now.code) }
    ensures setup { setup_in state.new program.now ≡ setup_in state.old program.now }
    ensures is_for { IsFor state.new program.now }
    ensures leads { Leads (Kind.Mixed seed) (setup_in state.old program.now) steps (cluster_in state.new program.now.code) }
{
    let mut words = SplitMix64::from_seed(seed.to_le_bytes());
    let mut made = 0;
    while made < steps {
        if running.is_empty() {
            return;
        }
        let word = words.next_word();
        let at = (word % running.len() as u64) as usize;
        step_one(state, program, &mut running, at);
        made += 1;
    }
}

/// The place in a list of so many that comes next in cyclic order, behind those before `from`.
fn in_round(from: usize, many: usize) -> usize
    ensures within { from < many → result ≡ from }
    ensures first { many ≤ from → result ≡ 0 }
{
    if from < many { from } else { 0 }
}

/// Makes the next event of the processor at this place of the list, which leaves the list where it ends. Answers the
/// place of the one behind it.
fn step_one(state: &mut State, program: &Program, running: &mut Vec<u32>, at: usize) -> usize
    requires at { at < length running.old.items }
    requires is_for { IsFor state.old program.now }
    requires running { running.old.items ≡ running_in_order (cluster_in state.old program.now.code) }
    ensures setup { setup_in state.new program.now ≡ setup_in state.old program.now }
    ensures is_for { IsFor state.new program.now }
    ensures running { running.new.items ≡ running_in_order (cluster_in state.new program.now.code) }
    ensures moves { Moves (setup_in state.old program.now) (cluster_in state.old program.now.code) (cluster_in state.new program.now.code) at result }
{
    let p = running[at];
    state.step(program, p);
    if state.end(p).is_none() {
        at + 1
    } else {
        running.remove(at);
        at
    }
}
