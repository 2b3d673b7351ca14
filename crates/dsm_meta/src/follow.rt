// The state behind a schedule's events, from any state on.
ghost use Rattle.std.specs.Prelude.{◌≡◌, ◌<◌, All, length};
ghost use Rattle.dsm_words.specs.Place.{lay_of, processors};
ghost use Rattle.dsm_runs.specs.Clusters.{IsReached};
ghost use Rattle.dsm_core.specs.Room.{HasRoomFor};
ghost use Rattle.dsm_core.specs.States.{setup_in, cluster_in, IsFor};
ghost use Rattle.dsm_meta.specs.Following.{FollowedFrom, FollowedFed};

use dsm_core::state::State;
use dsm_isa::program::Program;

/// Leads the state through the events of the processors that `schedule` names, in its order. The number of a processor that
/// has ended by then is left out, and a processor that lacks memory ends. Where each processor has room for as many entries
/// as there are numbers, it takes no memory.
pub fn follow(state: &mut State, program: &Program, schedule: &[u32])
    requires is_for { IsFor state.old program.now }
    requires numbers { All (λ p. p < processors (lay_of state.old.lay)) schedule.now }
    ensures setup { setup_in state.new program.now ≡ setup_in state.old program.now }
    ensures is_for { IsFor state.new program.now }
    ensures followed { FollowedFrom (setup_in state.old program.now) (cluster_in state.old program.now.code) schedule.now (cluster_in state.new program.now.code) }
    // With so much room no event is starved.
    ensures fed { HasRoomFor state.old (length schedule.now) → FollowedFed (setup_in state.old program.now) (cluster_in state.old program.now.code) schedule.now (cluster_in state.new program.now.code) }
    ensures reached { IsReached (setup_in state.old program.now) (cluster_in state.old program.now.code) → IsReached (setup_in state.new program.now) (cluster_in state.new program.now.code) }
{
    for p in schedule {
        state.step(program, *p);
    }
}
