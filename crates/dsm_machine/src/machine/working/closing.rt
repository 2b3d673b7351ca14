// The closing work of processor 0.
ghost use Rattle.std.specs.Prelude.{◌≡◌, ◌+◌, ◌<◌, ◌≤◌};

use crate::any_phase::AnyPhase;
use crate::closing::ClosingAt;
use crate::machine::Machine;
use crate::outcome::Outcome;
use crate::point::{Next, Point};
use dsm_clock::give::GiveTurn;
use dsm_clock::take::TakeTurn;
use dsm_directory::holder::Holder;
use dsm_directory::home::FindHome;
use dsm_directory::my_dir::MyDir;
use dsm_local::end::End;

impl Machine {
    ghost use Rattle.std.specs.Prelude.{IfSome};
    ghost use Rattle.dsm_protocol.specs.Processors.{settled};
    ghost use Rattle.dsm_protocol.specs.Steps.{closing_page};
    ghost use Rattle.dsm_machine.specs.Closings.{closing_next, closing_left, closing_over};
    ghost use Rattle.dsm_machine.specs.Machines.{who, own_of, seen, spare_of};
    ghost use Rattle.dsm_machine.specs.Results.{node_in, holder_of};

    /// Takes the result of a phase of the closing work.
    pub(super) fn closing_on(&mut self, g: u32, m: u32, at: ClosingAt, out: Outcome)
        requires page { g < self.old.lay.pages }
        requires node { m < self.old.lay.t.nodes }
        requires found { node_in out < self.old.lay.t.nodes }
        requires holder { IfSome (holder_of out) (λ k. k < self.old.lay.t.nodes) }
        requires room { 0 < spare_of self.old }
        ensures who { who self.new ≡ who self.old }
        ensures seen { seen self.new ≡ settled (own_of self.old) (closing_next (who self.old) g m at out) }
        ensures trace { self.new.trace ≡ self.old.trace }
    {
        match at {
            ClosingAt::Held => self.held(g, out.holder()),
            ClosingAt::Taken => self.look_held(g, m),
            ClosingAt::Dir => self.still_held(g, m, out.number()),
            ClosingAt::Home => self.break_held(g, m, out.node()),
            ClosingAt::Broken => self.broken(g, m),
            ClosingAt::Given => self.hold(g + 1),
        }
    }

    /// To page `g`, or to the end where there is none.
    #[tactic(auto, using(crate::proofs::Closings::closing_one, crate::proofs::Closings::closing_none))]
    pub(in crate::machine) fn hold(&mut self, g: u32)
        requires { g ≤ self.old.lay.pages }
        ensures who { who self.new ≡ who self.old }
        ensures seen { seen self.new ≡ settled (own_of self.old) (closing_left (who self.old) g) }
        ensures trace { self.new.trace ≡ self.old.trace }
    {
        if g < self.lay.pages {
            let holder = Holder::new(self.lay, g);
            self.start_free(
                AnyPhase::Holder(holder),
                Next::Closing {
                    g,
                    m: 0,
                    at: ClosingAt::Held,
                },
            );
            return;
        }
        self.point = Point::Over { end: End::Halted };
    }

    /// This node, if there is one, has the page alone.
    #[tactic(auto, using(crate::proofs::Holding::held_acquire))]
    fn held(&mut self, g: u32, holder: Option<u32>)
        requires page { g < self.old.lay.pages }
        requires holder { IfSome holder (λ m. m < self.old.lay.t.nodes) }
        ensures who { who self.new ≡ who self.old }
        ensures seen { seen self.new ≡ settled (own_of self.old) (closing_page (who self.old) g holder (closing_left (who self.old) (g + 1))) }
        ensures trace { self.new.trace ≡ self.old.trace }
    {
        match holder {
            Some(m) => {
                let take = TakeTurn::page(self.lay, m, g, self.p);
                self.start_free(
                    AnyPhase::Take(take),
                    Next::Closing {
                        g,
                        m,
                        at: ClosingAt::Taken,
                    },
                );
            }
            None => self.hold(g + 1),
        }
    }

    /// The turn of the node's copy is taken.
    fn look_held(&mut self, g: u32, m: u32)
        requires page { g < self.old.lay.pages }
        requires node { m < self.old.lay.t.nodes }
        requires room { 0 < spare_of self.old }
        ensures who { who self.new ≡ who self.old }
        ensures seen { seen self.new ≡ settled (own_of self.old) (closing_next (who self.old) g m ClosingAt.Taken Outcome.Nothing) }
        ensures trace { self.new.trace ≡ self.old.trace }
    {
        let dir = MyDir::new(self.lay, m, g);
        self.start(
            AnyPhase::MyDir(dir),
            Next::Closing {
                g,
                m,
                at: ClosingAt::Dir,
            },
        );
    }

    /// The node's word of the directory is `d`: where it has the page alone no longer, there is nothing to break.
    fn still_held(&mut self, g: u32, m: u32, d: u64)
        requires page { g < self.old.lay.pages }
        requires node { m < self.old.lay.t.nodes }
        requires room { 0 < spare_of self.old }
        ensures who { who self.new ≡ who self.old }
        ensures seen { seen self.new ≡ settled (own_of self.old) (closing_next (who self.old) g m ClosingAt.Dir (Outcome.Number d)) }
        ensures trace { self.new.trace ≡ self.old.trace }
    {
        if d == 2 {
            let home = FindHome::new(self.lay, self.node(), g);
            self.start(
                AnyPhase::FindHome(home),
                Next::Closing {
                    g,
                    m,
                    at: ClosingAt::Home,
                },
            );
            return;
        }
        self.give_held(g, m);
    }

    /// The home is known.
    #[tactic(auto, using(crate::proofs::Closings::break_open))]
    fn break_held(&mut self, g: u32, m: u32, h: u32)
        requires page { g < self.old.lay.pages }
        requires node { m < self.old.lay.t.nodes }
        requires home { h < self.old.lay.t.nodes }
        requires room { 0 < spare_of self.old }
        ensures who { who self.new ≡ who self.old }
        ensures seen { seen self.new ≡ settled (own_of self.old) (closing_next (who self.old) g m ClosingAt.Home (Outcome.Node h)) }
        ensures trace { self.new.trace ≡ self.old.trace }
    {
        let breaking = self.breaking(m, g, h);
        self.start(
            AnyPhase::Break(breaking),
            Next::Closing {
                g,
                m,
                at: ClosingAt::Broken,
            },
        );
    }

    /// The page is broken.
    fn broken(&mut self, g: u32, m: u32)
        requires page { g < self.old.lay.pages }
        requires node { m < self.old.lay.t.nodes }
        requires room { 0 < spare_of self.old }
        ensures who { who self.new ≡ who self.old }
        ensures seen { seen self.new ≡ settled (own_of self.old) (closing_next (who self.old) g m ClosingAt.Broken Outcome.Nothing) }
        ensures trace { self.new.trace ≡ self.old.trace }
    {
        self.counts.breaks = self.counts.breaks.wrapping_add(1);
        self.give_held(g, m);
    }

    /// The turn is to be given back.
    fn give_held(&mut self, g: u32, m: u32)
        requires page { g < self.old.lay.pages }
        requires node { m < self.old.lay.t.nodes }
        requires room { 0 < spare_of self.old }
        ensures who { who self.new ≡ who self.old }
        ensures seen { seen self.new ≡ settled (own_of self.old) (closing_over (who self.old) g m) }
        ensures trace { self.new.trace ≡ self.old.trace }
    {
        let give = GiveTurn::page(self.lay, m, g);
        self.start(
            AnyPhase::Give(give),
            Next::Closing {
                g,
                m,
                at: ClosingAt::Given,
            },
        );
    }
}
