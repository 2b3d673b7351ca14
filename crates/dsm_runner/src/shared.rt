// The table of all words.
ghost use Rattle.std.specs.Prelude.{◌≡◌, ◌<◌, true, false};
ghost use Rattle.dsm_words.specs.Op.{place_of};
ghost use Rattle.dsm_words.specs.Script.{op_of};
ghost use Rattle.dsm_protocol.specs.Jobs.{first_act};
ghost use Rattle.dsm_protocol.specs.Processors.{wanting};
ghost use Rattle.dsm_runs.specs.Setups.{lay_in, who_at};
ghost use Rattle.dsm_runs.specs.Clusters.{stays};
ghost use Rattle.dsm_runner.specs.Sights.{sight_after, seen_by};

use crate::rule::{Key, Moves, Reached, Starves, Stores};
use crate::view::View;
use atomic_table::{Seat, Table};
use dsm_protocol::limits::Limits;
use dsm_words::layout::Layout;
use dsm_words::op::Op;
use std::alloc::Global;
use std::marker::Model;

pub(crate) type Words = Table<(), View, Key, Reached, Global>;

/// The words of a cluster, for as many threads as want to step its workers. To a contract it is its table and its setup.
#[derive(Drop)]
pub struct Shared {
    pub(crate) table: Words,
    pub(crate) lay: Layout,
    pub(crate) limits: Limits,
}

impl Model for Shared {
    ghost use Rattle.dsm_runner.specs.Helds.{Board};

    ghost Value = { Board };

    ghost view = { λ s. record { table = s.table.shared.table_id; setup = s.table.shared.key } };

    ghost use Rattle.dsm_runner.specs.Boards.{IsBoard};

    ghost invariant = { IsBoard };
}

impl Shared {
    // The next operation of the seat's processor, as one atomic step on the table.
    pub(crate) fn perform(&self, seat: &mut Seat<(), View>, op: Op) -> u64
        requires table { seat.old.table_id ≡ self.now.table }
        requires below { place_of op < self.now.table.words }
        requires live { seat.old.me.0.live ≡ true }
        requires goes { stays false (seen_by seat.old.me.0).todo ≡ false }
        requires next { op ≡ op_of (lay_in seat.old.me.0.setup) (first_act (seen_by seat.old.me.0).todo) }
        ensures table { (seat.new.table_id ≡ seat.old.table_id) × (seat.new.id ≡ seat.old.id) }
        ensures view { seat.new.me ≡ (sight_after false seat.old.me.0 result, seat.old.me.1) }
    {
        let shared = &self.table.shared;
        match op {
            Op::Load { at } => shared.load::<Moves>(seat, at as usize),
            Op::Store { at, v } => {
                shared.store::<Stores>(seat, at as usize, v);
                0
            }
            Op::Swap { at, v } => shared.swap::<Moves>(seat, at as usize, v),
            Op::Exchange { at, old, new } => {
                shared.compare_exchange::<Moves>(seat, at as usize, old, new)
            }
            Op::Add { at, k } => shared.fetch_add::<Moves>(seat, at as usize, k),
            Op::Or { at, bits } => shared.fetch_or::<Moves>(seat, at as usize, bits),
        }
    }

    // The same where it wants memory: the exchange of the stop word.
    pub(crate) fn starve(&self, seat: &mut Seat<(), View>, op: Op) -> u64
        requires table { seat.old.table_id ≡ self.now.table }
        requires below { place_of op < self.now.table.words }
        requires live { seat.old.me.0.live ≡ true }
        requires goes { stays true (seen_by seat.old.me.0).todo ≡ false }
        requires next { op ≡ op_of (lay_in seat.old.me.0.setup) (first_act (wanting (who_at seat.old.me.0.setup seat.old.me.0.number) true (seen_by seat.old.me.0)).todo) }
        ensures table { (seat.new.table_id ≡ seat.old.table_id) × (seat.new.id ≡ seat.old.id) }
        ensures view { seat.new.me ≡ (sight_after true seat.old.me.0 result, seat.old.me.1) }
    {
        let shared = &self.table.shared;
        let Op::Exchange { at, old, new } = op else {
            unreachable!()
        };
        shared.compare_exchange::<Starves>(seat, at as usize, old, new)
    }
}
