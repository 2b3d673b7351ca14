// The state behind a schedule's events, and the headline of what it leaves.
ghost use Rattle.std.specs.Prelude.{◌≡◌, ◌<◌, ◌*◌, All, IfOk};
ghost use Rattle.dsm_runs.specs.Clusters.{IsReached};
ghost use Rattle.dsm_core.specs.States.{setup_of, setup_in, cluster_in, IsFor};
ghost use Rattle.dsm_meta.specs.Facts.{SparesMappings};
ghost use Rattle.dsm_meta.specs.Following.{Followed, HoldsIn};
ghost use Rattle.dsm_twoway.specs.After.{KeepsPromises, KeepsWords};

use dsm_core::state::State;
use dsm_entry::entry::NoMemory;
use dsm_isa::program::Program;
use dsm_meta::after::pages_after;
use dsm_protocol::limits::Limits;
use dsm_words::topology::Topology;
use std::alloc::Global;

/// The state of the program behind the events of the processors that `schedule` names, in its order. The number of a
/// processor that has ended by then is left out. An error is want of memory for the start; later a processor that lacks
/// memory ends.
pub fn after(
    alloc: Global,
    program: &Program,
    t: Topology,
    limits: Limits,
    schedule: &[u32],
) -> Result<State, NoMemory>
    requires { All (λ p. p < t.nodes * t.procs) schedule.now }
    ensures setup { IfOk result (λ st. setup_in st program.now ≡ setup_of program.now t limits) }
    ensures is_for { IfOk result (λ st. IsFor st program.now) }
    ensures followed { IfOk result (λ st. Followed (setup_of program.now t limits) schedule.now (cluster_in st program.now.code)) }
    ensures reached { IfOk result (λ st. IsReached (setup_in st program.now) (cluster_in st program.now.code)) }
    // Each processor has done what its program says, and synchronisation was legal.
    ensures runs { IfOk result (λ st. HoldsIn KeepsPromises program.now st) }
    // No load of a word returned a value that was not there; if the conflicting accesses of the word so far are ordered, each
    // load of it returned the last store ordered before it, whatever its neighbours on the page do; and once all processors
    // have halted, its home has its last store.
    ensures words { IfOk result (λ st. HoldsIn KeepsWords program.now st) }
    // No event changes another processor's mapping, nor its words of it.
    ensures mappings { IfOk result (λ st. HoldsIn SparesMappings program.now st) }
{
    pages_after(alloc, program, t, limits, schedule)
}
