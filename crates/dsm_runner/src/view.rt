// What a seat of the table knows.
use dsm_isa::program::Program;
use dsm_protocol::limits::Limits;
use dsm_words::topology::Topology;
use std::marker::Model;

/// What a seat of the table knows. No value of it is made: it stands in contracts alone, and costs nothing at run time.
pub struct View {
    live: bool,
    program: Program,
    t: Topology,
    limits: Limits,
    number: u32,
    given: Vec<(bool, u64)>,
    leads: bool,
    made: u64,
    joined: Vec<Vec<(bool, u64)>>,
}

impl Model for View {
    ghost use Rattle.std.specs.Prelude.{map};
    ghost use Rattle.dsm_core.specs.States.{setup_of};
    ghost use Rattle.dsm_runner.specs.Sights.{Sight, given_list};

    ghost Value = { Sight };

    ghost view = { λ v. record { live = v.live; setup = setup_of v.program v.t v.limits; number = v.number; given = given_list v.given.items; leads = v.leads; made = v.made; joined = map (λ list. given_list list.items) v.joined.items } };
}
