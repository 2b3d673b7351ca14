// The state behind a schedule's events where there is room for all entries, and the headline of what it leaves.
ghost use Rattle.std.specs.Prelude.{◌≡◌, ◌<◌, All, length};
ghost use Rattle.dsm_words.specs.Place.{lay_of, processors};
ghost use Rattle.dsm_runs.specs.Clusters.{start, IsReached};
ghost use Rattle.dsm_core.specs.Room.{HasRoomFor};
ghost use Rattle.dsm_core.specs.States.{setup_in, cluster_in, IsFor};
ghost use Rattle.dsm_meta.specs.Facts.{SparesMappings};
ghost use Rattle.dsm_meta.specs.Following.{FollowedFed, HoldsIn};
ghost use Rattle.dsm_twoway.specs.After.{KeepsPromises, KeepsWords};

use dsm_core::state::State;
use dsm_isa::program::Program;
use dsm_meta::follow::follow;

/// Leads a state that stands at the start through the events of the processors that `schedule` names, in its order. The
/// number of a processor that has ended by then is left out. It takes no memory, and no processor wants any.
pub fn after_start(state: &mut State, program: &Program, schedule: &[u32])
    requires is_for { IsFor state.old program.now }
    requires start { cluster_in state.old program.now.code ≡ start (setup_in state.old program.now) }
    requires room { HasRoomFor state.old (length schedule.now) }
    requires numbers { All (λ p. p < processors (lay_of state.old.lay)) schedule.now }
    ensures setup { setup_in state.new program.now ≡ setup_in state.old program.now }
    ensures is_for { IsFor state.new program.now }
    // The events are those of the schedule, and none of them is starved.
    ensures followed { FollowedFed (setup_in state.old program.now) (start (setup_in state.old program.now)) schedule.now (cluster_in state.new program.now.code) }
    ensures reached { IsReached (setup_in state.new program.now) (cluster_in state.new program.now.code) }
    // Each processor has done what its program says, and synchronisation was legal.
    ensures runs { HoldsIn KeepsPromises program.now state.new }
    // No load of a word returned a value that was not there; if the conflicting accesses of the word so far are ordered, each
    // load of it returned the last store ordered before it, whatever its neighbours on the page do; and once all processors
    // have halted, its home has its last store.
    ensures words { HoldsIn KeepsWords program.now state.new }
    // No event changes another processor's mapping, nor its words of it.
    ensures mappings { HoldsIn SparesMappings program.now state.new }
{
    follow(state, program, schedule);
}
