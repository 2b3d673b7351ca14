// A processor with its seat at the table.
use crate::view::View;
use atomic_table::Seat;
use dsm_machine::machine::Machine;
use std::marker::Model;

mod steps;

/// One processor of a table: its machine, and the seat that knows it. It may be sent to a thread.
#[derive(Drop)]
pub struct Worker {
    pub(crate) number: u32,
    pub(crate) machine: Machine,
    pub(crate) seat: Seat<(), View>,
}

impl Model for Worker {
    ghost use Rattle.dsm_machine.specs.Machines.{spare_of};
    ghost use Rattle.dsm_runner.specs.Helds.{Held};

    ghost Value = { Held };

    ghost view = { λ w. record { table = w.seat.table_id; setup = w.seat.me.0.setup; number = w.seat.me.0.number; given = w.seat.me.0.given; spare = spare_of w.machine } };

    ghost use Rattle.dsm_runner.specs.Holds.{IsHeld};

    ghost invariant = { IsHeld };
}
