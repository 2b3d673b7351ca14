// The rule of the table.
use crate::view::View;
use atomic_table::{Join, Play, Split, TableRule};
use dsm_isa::program::Program;
use dsm_protocol::limits::Limits;
use dsm_words::topology::Topology;
use std::marker::Model;
use std::snapshot::Snapshot;

/// What the table is told once: the program, the cluster and the limits.
#[derive(Drop)]
pub struct Key {
    pub program: Snapshot<Program>,
    pub t: Topology,
    pub limits: Limits,
}

impl Model for Key {
    ghost use Rattle.dsm_runs.specs.Setups.{Setup};
    ghost use Rattle.dsm_core.specs.States.{setup_of};

    ghost Value = { Setup };

    ghost view = { λ k. setup_of k.program.value k.t k.limits };
}

/// Between any two steps the words, with the processors that the views tell of, are a reached state.
pub struct Reached;

impl TableRule<(), View, Key> for Reached {
    ghost use Rattle.dsm_runner.specs.Sights.{Kept, first_sight};

    ghost holds = { λ k s. Kept k s.words s.views };

    ghost first = { first_sight };
}

/// An event of the seat's processor, which is given the word that was there.
pub struct Moves;

impl Play<(), View> for Moves {
    ghost use Rattle.std.specs.Prelude.{◌≡◌, false};
    ghost use Rattle.dsm_runner.specs.Sights.{sight_after};

    ghost then = { λ s v n w. w ≡ (sight_after false v.0 n, v.1) };
}

/// The same for a store, which is given 0.
pub struct Stores;

impl Play<(), View> for Stores {
    ghost use Rattle.std.specs.Prelude.{◌≡◌, false};
    ghost use Rattle.dsm_runner.specs.Sights.{sight_after};

    ghost then = { λ s v n w. w ≡ (sight_after false v.0 0, v.1) };
}

/// An event of the seat's processor when it wants memory.
pub struct Starves;

impl Play<(), View> for Starves {
    ghost use Rattle.std.specs.Prelude.{◌≡◌, true};
    ghost use Rattle.dsm_runner.specs.Sights.{sight_after};

    ghost then = { λ s v n w. w ≡ (sight_after true v.0 n, v.1) };
}

/// The first seat, and the seat of the next number.
pub struct Next;

impl Split<View> for Next {
    ghost use Rattle.dsm_runner.specs.Sights.{cut_left, cut_right};

    ghost left = { cut_left };

    ghost right = { cut_right };
}

impl Join<View> for Next {
    ghost use Rattle.dsm_runner.specs.Sights.{taken_in, spent};

    ghost both = { taken_in };

    ghost spent = { spent };
}
