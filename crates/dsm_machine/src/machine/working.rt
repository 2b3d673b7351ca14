// What follows the result of a phase.
ghost use Rattle.std.specs.Prelude.{◌≡◌, ◌+◌, ◌*◌, ◌^◌, ◌<◌};
ghost use Rattle.dsm_words.specs.Place.{lay_of};

mod acquiring;
mod closing;
mod faulting;
mod releasing;
mod visiting;
mod writing;

use super::Machine;
use crate::outcome::Outcome;
use crate::point::Next;

impl Machine {
    ghost use Rattle.std.specs.Prelude.{IfSome};
    ghost use Rattle.dsm_protocol.specs.Processors.{settled};
    ghost use Rattle.dsm_machine.specs.Machines.{who, own_of, seen, spare_of, Spends};
    ghost use Rattle.dsm_machine.specs.Points.{next_job, next_register, next_address, next_page, next_home, next_node, next_number, nexts_of, next_slack};
    ghost use Rattle.dsm_machine.specs.Results.{node_in, holder_of};

    /// Takes the result of a phase.
    #[tactic(auto, using(crate::proofs::Spending::spends_none))]
    pub(super) fn go_on(&mut self, next: Next, out: Outcome)
        requires register { next_register next < 16 }
        requires address { next_address next < self.old.lay.pages * self.old.lay.words }
        requires page { next_page next < self.old.lay.pages }
        requires home { next_home next < self.old.lay.t.nodes }
        requires node { next_node next < self.old.lay.t.nodes }
        requires object { next_number next < nexts_of (lay_of self.old.lay) next }
        requires found { node_in out < self.old.lay.t.nodes }
        requires holder { IfSome (holder_of out) (λ m. m < self.old.lay.t.nodes) }
        requires place { self.old.reader.place + 1 < 2 ^ 32 + next_slack next }
        requires done { self.old.reader.done + 1 < 2 ^ 64 + next_slack next }
        requires room { 0 < spare_of self.old }
        ensures who { who self.new ≡ who self.old }
        ensures seen { seen self.new ≡ settled (own_of self.old) (next_job (who self.old) next out) }
        ensures spends { Spends self.old.trace self.new.trace }
    {
        match next {
            Next::Fault { access, at } => self.fault_on(access, at, out),
            Next::Write { w, v, at } => self.write_on(w, v, at, out),
            Next::Release { r, at } => self.release_on(r, at, out),
            Next::Signal { signal } => self.signalled(signal, out),
            Next::Acquire { set, g, at } => self.acquire_on(set, g, at, out),
            Next::Closing { g, m, at } => self.closing_on(g, m, at, out),
            Next::Try { l } => self.tried(l, out.got()),
            Next::Look { of, need } => self.looked(of, need, out.got()),
        }
    }
}
