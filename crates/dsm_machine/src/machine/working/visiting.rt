// Visits of the nodes that have a page alone or claim it.
ghost use Rattle.std.specs.Prelude.{◌≡◌, ◌+◌, ◌*◌, ◌^◌, ◌<◌, ◌≤◌};
ghost use Rattle.dsm_words.specs.Place.{lay_of};
ghost use Rattle.dsm_notice.specs.Finding.{HasNext, HasNone};

use crate::any_phase::AnyPhase;
use crate::fault::FaultAt;
use crate::machine::Machine;
use crate::outcome::Outcome;
use crate::point::{Access, Next};
use dsm_clock::give::GiveTurn;
use dsm_clock::take::TakeTurn;
use dsm_directory::my_dir::MyDir;
use dsm_exclusive::breaking::Break;

/// The first busy node from node `m` on and below `nodes`.
fn next_busy(busy: u32, m: u32, nodes: u32) -> Option<u32>
    requires m { m ≤ nodes }
    requires nodes { nodes ≤ 8 }
    ensures some { HasNext busy m nodes result }
    ensures none { HasNone busy m nodes result }
{
    let rest = u64::from(busy) >> m;
    if rest == 0 {
        return None;
    }
    let b = m + rest.trailing_zeros();
    if b < nodes { Some(b) } else { None }
}

impl Machine {
    ghost use Rattle.dsm_exclusive.specs.Breaking.{break_rest, break_lay, break_script};
    ghost use Rattle.dsm_protocol.specs.Steps.{visit_job, break_job};
    ghost use Rattle.dsm_protocol.specs.Processors.{settled};
    ghost use Rattle.dsm_machine.specs.Faults.{fault_next, address_of, register_of, page_at, visits_left, visit_over};
    ghost use Rattle.dsm_machine.specs.Machines.{who, own_of, seen, spare_of};

    /// The turn is given back: all busy nodes are visited.
    pub(super) fn visit_all(&mut self, access: Access, h: u32, busy: u32)
        requires register { register_of access < 16 }
        requires address { address_of access < self.old.lay.pages * self.old.lay.words }
        requires home { h < self.old.lay.t.nodes }
        requires place { self.old.reader.place + 1 < 2 ^ 32 }
        requires done { self.old.reader.done + 1 < 2 ^ 64 }
        requires room { 0 < spare_of self.old }
        ensures who { who self.new ≡ who self.old }
        ensures seen { seen self.new ≡ settled (own_of self.old) (fault_next (who self.old) access (FaultAt.Left h busy) Outcome.Nothing) }
        ensures trace { self.new.trace ≡ self.old.trace }
    {
        self.visit(access, h, busy, 0);
    }

    /// To the first busy node from node `m` on, or behind all visits.
    pub(super) fn visit(&mut self, access: Access, h: u32, busy: u32, m: u32)
        requires register { register_of access < 16 }
        requires address { address_of access < self.old.lay.pages * self.old.lay.words }
        requires home { h < self.old.lay.t.nodes }
        requires node { m ≤ self.old.lay.t.nodes }
        requires place { self.old.reader.place + 1 < 2 ^ 32 }
        requires done { self.old.reader.done + 1 < 2 ^ 64 }
        requires room { 0 < spare_of self.old }
        ensures who { who self.new ≡ who self.old }
        ensures seen { seen self.new ≡ settled (own_of self.old) (visits_left (who self.old) access h busy m) }
        ensures trace { self.new.trace ≡ self.old.trace }
    {
        match next_busy(busy, m, self.lay.t.nodes) {
            Some(next) => self.visit_node(access, h, busy, next),
            None => self.retake(access, h),
        }
    }

    /// Node `m` is visited: its turn is taken.
    fn visit_node(&mut self, access: Access, h: u32, busy: u32, m: u32)
        requires register { register_of access < 16 }
        requires address { address_of access < self.old.lay.pages * self.old.lay.words }
        requires home { h < self.old.lay.t.nodes }
        requires node { m < self.old.lay.t.nodes }
        requires place { self.old.reader.place + 1 < 2 ^ 32 }
        requires done { self.old.reader.done + 1 < 2 ^ 64 }
        requires room { 0 < spare_of self.old }
        ensures who { who self.new ≡ who self.old }
        ensures seen { seen self.new ≡ settled (own_of self.old) (visit_job (who self.old) m (page_at (who self.old) access) h (visits_left (who self.old) access h busy (m + 1))) }
        ensures trace { self.new.trace ≡ self.old.trace }
    {
        let g = self.page(access.address());
        let take = TakeTurn::page(self.lay, m, g, self.p);
        self.start(
            AnyPhase::Take(take),
            Next::Fault {
                access,
                at: FaultAt::VisitTaken { h, busy, m },
            },
        );
    }

    /// Its turn is taken: its word is loaded.
    pub(super) fn look_visited(&mut self, access: Access, h: u32, busy: u32, m: u32)
        requires register { register_of access < 16 }
        requires address { address_of access < self.old.lay.pages * self.old.lay.words }
        requires home { h < self.old.lay.t.nodes }
        requires node { m < self.old.lay.t.nodes }
        requires place { self.old.reader.place + 1 < 2 ^ 32 }
        requires done { self.old.reader.done + 1 < 2 ^ 64 }
        requires room { 0 < spare_of self.old }
        ensures who { who self.new ≡ who self.old }
        ensures seen { seen self.new ≡ settled (own_of self.old) (fault_next (who self.old) access (FaultAt.VisitTaken h busy m) Outcome.Nothing) }
        ensures trace { self.new.trace ≡ self.old.trace }
    {
        let g = self.page(access.address());
        let dir = MyDir::new(self.lay, m, g);
        self.start(
            AnyPhase::MyDir(dir),
            Next::Fault {
                access,
                at: FaultAt::VisitDir { h, busy, m },
            },
        );
    }

    /// Its word is `d`: where it has the page alone, that is broken.
    pub(super) fn visited_dir(&mut self, access: Access, h: u32, busy: u32, m: u32, d: u64)
        requires register { register_of access < 16 }
        requires address { address_of access < self.old.lay.pages * self.old.lay.words }
        requires home { h < self.old.lay.t.nodes }
        requires node { m < self.old.lay.t.nodes }
        requires place { self.old.reader.place + 1 < 2 ^ 32 }
        requires done { self.old.reader.done + 1 < 2 ^ 64 }
        requires room { 0 < spare_of self.old }
        ensures who { who self.new ≡ who self.old }
        ensures seen { seen self.new ≡ settled (own_of self.old) (fault_next (who self.old) access (FaultAt.VisitDir h busy m) (Outcome.Number d)) }
        ensures trace { self.new.trace ≡ self.old.trace }
    {
        if d == 2 {
            self.break_page(access, h, busy, m);
            return;
        }
        self.end_visit(access, h, busy, m);
    }

    /// Node `m` is to have page `g`, whose home is `h`, no longer alone.
    pub(super) fn breaking(&self, m: u32, g: u32, h: u32) -> Break
        requires node { m < self.now.lay.t.nodes }
        requires page { g < self.now.lay.pages }
        requires home { h < self.now.lay.t.nodes }
        ensures rest { break_rest result ≡ break_script (lay_of self.now.lay) m g h }
        ensures lay { break_lay result ≡ lay_of self.now.lay }
    {
        Break::new(self.lay.with_home(g, h), m, g)
    }

    /// It has the page no longer alone.
    fn break_page(&mut self, access: Access, h: u32, busy: u32, m: u32)
        requires register { register_of access < 16 }
        requires address { address_of access < self.old.lay.pages * self.old.lay.words }
        requires home { h < self.old.lay.t.nodes }
        requires node { m < self.old.lay.t.nodes }
        requires place { self.old.reader.place + 1 < 2 ^ 32 }
        requires done { self.old.reader.done + 1 < 2 ^ 64 }
        requires room { 0 < spare_of self.old }
        ensures who { who self.new ≡ who self.old }
        ensures seen { seen self.new ≡ settled (own_of self.old) (break_job (who self.old) m (page_at (who self.old) access) h (visit_over (who self.old) access h busy m)) }
        ensures trace { self.new.trace ≡ self.old.trace }
    {
        let g = self.page(access.address());
        let breaking = self.breaking(m, g, h);
        self.start(
            AnyPhase::Break(breaking),
            Next::Fault {
                access,
                at: FaultAt::VisitBroken { h, busy, m },
            },
        );
    }

    /// Its page is broken.
    pub(super) fn visit_broken(&mut self, access: Access, h: u32, busy: u32, m: u32)
        requires register { register_of access < 16 }
        requires address { address_of access < self.old.lay.pages * self.old.lay.words }
        requires home { h < self.old.lay.t.nodes }
        requires node { m < self.old.lay.t.nodes }
        requires place { self.old.reader.place + 1 < 2 ^ 32 }
        requires done { self.old.reader.done + 1 < 2 ^ 64 }
        requires room { 0 < spare_of self.old }
        ensures who { who self.new ≡ who self.old }
        ensures seen { seen self.new ≡ settled (own_of self.old) (fault_next (who self.old) access (FaultAt.VisitBroken h busy m) Outcome.Nothing) }
        ensures trace { self.new.trace ≡ self.old.trace }
    {
        self.counts.breaks = self.counts.breaks.wrapping_add(1);
        self.end_visit(access, h, busy, m);
    }

    /// The visit is over: its turn is given back.
    fn end_visit(&mut self, access: Access, h: u32, busy: u32, m: u32)
        requires register { register_of access < 16 }
        requires address { address_of access < self.old.lay.pages * self.old.lay.words }
        requires home { h < self.old.lay.t.nodes }
        requires node { m < self.old.lay.t.nodes }
        requires place { self.old.reader.place + 1 < 2 ^ 32 }
        requires done { self.old.reader.done + 1 < 2 ^ 64 }
        requires room { 0 < spare_of self.old }
        ensures who { who self.new ≡ who self.old }
        ensures seen { seen self.new ≡ settled (own_of self.old) (visit_over (who self.old) access h busy m) }
        ensures trace { self.new.trace ≡ self.old.trace }
    {
        let g = self.page(access.address());
        let give = GiveTurn::page(self.lay, m, g);
        self.start(
            AnyPhase::Give(give),
            Next::Fault {
                access,
                at: FaultAt::VisitGiven { h, busy, m },
            },
        );
    }
}
