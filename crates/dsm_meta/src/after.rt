// The state behind a schedule's events.
ghost use Rattle.std.specs.Prelude.{◌≡◌, ◌<◌, ◌*◌, All, IfOk};
ghost use Rattle.dsm_runs.specs.Clusters.{IsReached};
ghost use Rattle.dsm_ties.specs.Clocks.{ClockBound, ClocksStand};
ghost use Rattle.dsm_ties.specs.Holders.{OneHolder, UnregisteredUnmapped, WritersTwinned, HomeBare, HomelessUntouched, HomelessUnwritten};
ghost use Rattle.dsm_freshness.specs.Past.{FreshCopies};
ghost use Rattle.dsm_core.specs.States.{setup_of, setup_in, cluster_in, IsFor};
ghost use Rattle.dsm_meta.specs.Facts.{SyncIsLegal, OwnMaps, TurnHolders, SomeGoesOn, SparesMappings, HomeFixed};
ghost use Rattle.dsm_meta.specs.Following.{Followed, HoldsIn};

use crate::follow::follow;
use dsm_core::state::State;
use dsm_entry::entry::NoMemory;
use dsm_isa::program::Program;
use dsm_protocol::limits::Limits;
use dsm_words::topology::Topology;
use std::alloc::Global;

/// The state of the program behind the events of the processors that `schedule` names, in its order. The number of a
/// processor that has ended by then is left out. An error is want of memory for the start; later a processor that lacks
/// memory ends.
pub fn pages_after(
    alloc: Global,
    program: &Program,
    t: Topology,
    limits: Limits,
    schedule: &[u32],
) -> Result<State, NoMemory>
    requires { All (λ p. p < t.nodes * t.procs) schedule.now }
    ensures setup { IfOk result (λ st. setup_in st program.now ≡ setup_of program.now t limits) }
    ensures is_for { IfOk result (λ st. IsFor st program.now) }
    ensures followed { IfOk result (λ st. Followed (setup_of program.now t limits) schedule.now (cluster_in st program.now.code)) }
    ensures reached { IfOk result (λ st. IsReached (setup_in st program.now) (cluster_in st program.now.code)) }
    // Of the state holds what holds of every reached state: synchronisation is legal,
    ensures sync_legal { IfOk result (λ st. HoldsIn SyncIsLegal program.now st) }
    // the words of a processor's mappings are the mappings that it has,
    ensures own_maps { IfOk result (λ st. HoldsIn OwnMaps program.now st) }
    // a turn has at most one holder, a processor holds at most one turn, and one that has ended holds none,
    ensures turn_holders { IfOk result (λ st. HoldsIn TurnHolders program.now st) }
    // nobody waits for turns in a circle,
    ensures no_circle { IfOk result (λ st. HoldsIn SomeGoesOn program.now st) }
    // no event changes another processor's mapping,
    ensures other_maps { IfOk result (λ st. HoldsIn SparesMappings program.now st) }
    // a page that has a home keeps it, and one that has none is in no node's directory,
    ensures home_fixed { IfOk result (λ st. HoldsIn HomeFixed program.now st) }
    // a node's clock is at most 1 more than the draws that its processors' instructions may make,
    ensures clock_bound { IfOk result (λ st. HoldsIn ClockBound program.now st) }
    // so no clock is ever 0, and none comes round,
    ensures clocks { IfOk result (λ st. HoldsIn ClocksStand program.now st) }
    // where a node has a page alone, every other one has nothing of it that may be used,
    ensures one_holder { IfOk result (λ st. HoldsIn OneHolder program.now st) }
    // a node that does not use a page has no mapping and no twin of it,
    ensures unregistered { IfOk result (λ st. HoldsIn UnregisteredUnmapped program.now st) }
    // who may store away from the home has a node with the page alone, or with a twin,
    ensures writers { IfOk result (λ st. HoldsIn WritersTwinned program.now st) }
    // the home has no twin,
    ensures home_bare { IfOk result (λ st. HoldsIn HomeBare program.now st) }
    // a page without a home is used by no node, and has the words with which it started,
    ensures untouched { IfOk result (λ st. HoldsIn HomelessUntouched program.now st) }
    ensures unwritten { IfOk result (λ st. HoldsIn HomelessUnwritten program.now st) }
    // and where a processor at rest maps a page away from its home, its node has fetched it since the end of each send by
    // another node that was told before one of its passes; and at rest or not, it has fetched it at all.
    ensures fresh { IfOk result (λ st. HoldsIn FreshCopies program.now st) }
{
    let mut state = State::start(alloc, program, t, limits)?;
    follow(&mut state, program, schedule);
    Ok(state)
}
