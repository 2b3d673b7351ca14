// Acquire work.
ghost use Rattle.std.specs.Prelude.{◌≡◌, ◌+◌, ◌^◌, ◌<◌, ◌≤◌};

use crate::acquire::AcquireAt;
use crate::any_phase::AnyPhase;
use crate::machine::Machine;
use crate::machine::dirty::first_page;
use crate::outcome::Outcome;
use crate::point::Next;
use dsm_clock::give::GiveTurn;
use dsm_clock::take::TakeTurn;
use dsm_directory::leave::Leave;
use dsm_directory::my_dir::MyDir;
use dsm_frames::mapping::SetMap;
use dsm_notice::drain::Drain;
use dsm_notice::own::TakeOwn;
use dsm_notice::stale::Stale;

impl Machine {
    ghost use Rattle.std.specs.Prelude.{true, None, IfSome};
    ghost use Rattle.dsm_protocol.specs.Processors.{settled};
    ghost use Rattle.dsm_machine.specs.Acquires.{acquire_next, drain_left, notices_left, own_left, taken_all, taken_left, looked_at, is_mapped_in, HasNoMapped};
    ghost use Rattle.dsm_machine.specs.Machines.{who, own_of, seen, spare_of};

    /// Takes the result of a phase of an acquire.
    pub(super) fn acquire_on(&mut self, set: [u64; 4], g: u32, at: AcquireAt, out: Outcome)
        requires page { g < self.old.lay.pages }
        requires place { self.old.reader.place + 1 < 2 ^ 32 }
        requires done { self.old.reader.done + 1 < 2 ^ 64 }
        requires room { 0 < spare_of self.old }
        ensures who { who self.new ≡ who self.old }
        ensures seen { seen self.new ≡ settled (own_of self.old) (acquire_next (who self.old) set g at out) }
        ensures trace { self.new.trace ≡ self.old.trace }
    {
        match at {
            AcquireAt::NoticesTaken => self.drain_notices(),
            AcquireAt::Drained => self.give_notices(),
            AcquireAt::NoticesGiven => self.take_told(),
            AcquireAt::OwnTaken => self.acquire_taken(out.pages()),
            AcquireAt::Taken => self.acquire_page(set, g),
            AcquireAt::Dir => self.acquire_known(set, g, out.number()),
            AcquireAt::Checked => self.acquire_checked(set, g, out.whether()),
            AcquireAt::Unmapped => self.acquire_unmapped(set, g),
            AcquireAt::Left => self.acquire_looked(set, g),
            AcquireAt::Given => self.acquire_from(set, g + 1),
        }
    }

    /// It has the turn of its node's notices.
    fn drain_notices(&mut self)
        requires place { self.old.reader.place + 1 < 2 ^ 32 }
        requires done { self.old.reader.done + 1 < 2 ^ 64 }
        requires room { 0 < spare_of self.old }
        ensures who { who self.new ≡ who self.old }
        ensures seen { seen self.new ≡ settled (own_of self.old) (drain_left (who self.old)) }
        ensures trace { self.new.trace ≡ self.old.trace }
    {
        let drain = Drain::new(self.lay, self.node());
        self.start(
            AnyPhase::Drain(drain),
            Next::Acquire {
                set: [0; 4],
                g: 0,
                at: AcquireAt::Drained,
            },
        );
    }

    /// They are drained.
    fn give_notices(&mut self)
        requires place { self.old.reader.place + 1 < 2 ^ 32 }
        requires done { self.old.reader.done + 1 < 2 ^ 64 }
        requires room { 0 < spare_of self.old }
        ensures who { who self.new ≡ who self.old }
        ensures seen { seen self.new ≡ settled (own_of self.old) (notices_left (who self.old)) }
        ensures trace { self.new.trace ≡ self.old.trace }
    {
        let give = GiveTurn::notices(self.lay, self.node());
        self.start(
            AnyPhase::Give(give),
            Next::Acquire {
                set: [0; 4],
                g: 0,
                at: AcquireAt::NoticesGiven,
            },
        );
    }

    /// The turn is given back: it takes the pages of which it was told.
    fn take_told(&mut self)
        requires place { self.old.reader.place + 1 < 2 ^ 32 }
        requires done { self.old.reader.done + 1 < 2 ^ 64 }
        requires room { 0 < spare_of self.old }
        ensures who { who self.new ≡ who self.old }
        ensures seen { seen self.new ≡ settled (own_of self.old) (own_left (who self.old)) }
        ensures trace { self.new.trace ≡ self.old.trace }
    {
        let own = TakeOwn::new(self.lay, self.p);
        self.start(
            AnyPhase::TakeOwn(own),
            Next::Acquire {
                set: [0; 4],
                g: 0,
                at: AcquireAt::OwnTaken,
            },
        );
    }

    /// These are the pages.
    fn acquire_taken(&mut self, set: [u64; 4])
        requires place { self.old.reader.place + 1 < 2 ^ 32 }
        requires done { self.old.reader.done + 1 < 2 ^ 64 }
        requires room { 0 < spare_of self.old }
        ensures who { who self.new ≡ who self.old }
        ensures seen { seen self.new ≡ settled (own_of self.old) (taken_all (who self.old) set) }
        ensures trace { self.new.trace ≡ self.old.trace }
    {
        self.acquire_from(set, 0);
    }

    /// To the next page of the set from page `from` on that it has mapped, or to the next instruction.
    fn acquire_from(&mut self, set: [u64; 4], from: u32)
        requires from { from ≤ self.old.lay.pages }
        requires place { self.old.reader.place + 1 < 2 ^ 32 }
        requires done { self.old.reader.done + 1 < 2 ^ 64 }
        requires room { 0 < spare_of self.old }
        ensures who { who self.new ≡ who self.old }
        ensures seen { seen self.new ≡ settled (own_of self.old) (taken_left (who self.old) set from) }
        ensures trace { self.new.trace ≡ self.old.trace }
    {
        match self.next_mapped(set, from) {
            Some(g) => {
                let take = TakeTurn::page(self.lay, self.node(), g, self.p);
                self.start(
                    AnyPhase::Take(take),
                    Next::Acquire {
                        set,
                        g,
                        at: AcquireAt::Taken,
                    },
                );
            }
            None => self.moved(),
        }
    }

    /// The first page of the set from page `from` on that it has mapped.
    fn next_mapped(&self, set: [u64; 4], from: u32) -> Option<u32>
        requires { from ≤ self.now.lay.pages }
        ensures some { IfSome result (λ g. (from ≤ g) × (g < self.now.lay.pages) × (is_mapped_in set self.now.maps g ≡ true) × HasNoMapped set self.now.maps from g) }
        ensures none { result ≡ None → HasNoMapped set self.now.maps from self.now.lay.pages }
    {
        let mut at = from;
        while let Some(g) = first_page(set, at, self.lay.pages) {
            if self.maps[g as usize] != 0 {
                return Some(g);
            }
            at = g + 1;
        }
        None
    }

    /// It has the turn of the page.
    fn acquire_page(&mut self, set: [u64; 4], g: u32)
        requires page { g < self.old.lay.pages }
        requires place { self.old.reader.place + 1 < 2 ^ 32 }
        requires done { self.old.reader.done + 1 < 2 ^ 64 }
        requires room { 0 < spare_of self.old }
        ensures who { who self.new ≡ who self.old }
        ensures seen { seen self.new ≡ settled (own_of self.old) (acquire_next (who self.old) set g AcquireAt.Taken Outcome.Nothing) }
        ensures trace { self.new.trace ≡ self.old.trace }
    {
        let dir = MyDir::new(self.lay, self.node(), g);
        self.start(
            AnyPhase::MyDir(dir),
            Next::Acquire {
                set,
                g,
                at: AcquireAt::Dir,
            },
        );
    }

    /// The word of its node in the directory is `d`: a page that the node has alone is never out of date.
    fn acquire_known(&mut self, set: [u64; 4], g: u32, d: u64)
        requires page { g < self.old.lay.pages }
        requires place { self.old.reader.place + 1 < 2 ^ 32 }
        requires done { self.old.reader.done + 1 < 2 ^ 64 }
        requires room { 0 < spare_of self.old }
        ensures who { who self.new ≡ who self.old }
        ensures seen { seen self.new ≡ settled (own_of self.old) (acquire_next (who self.old) set g AcquireAt.Dir (Outcome.Number d)) }
        ensures trace { self.new.trace ≡ self.old.trace }
    {
        if d == 2 {
            self.acquire_looked(set, g);
            return;
        }
        let stale = Stale::new(self.lay, self.node(), g);
        self.start(
            AnyPhase::Stale(stale),
            Next::Acquire {
                set,
                g,
                at: AcquireAt::Checked,
            },
        );
    }

    /// Whether the copy is out of date is known: where it is, it is mapped no more.
    fn acquire_checked(&mut self, set: [u64; 4], g: u32, stale: bool)
        requires page { g < self.old.lay.pages }
        requires place { self.old.reader.place + 1 < 2 ^ 32 }
        requires done { self.old.reader.done + 1 < 2 ^ 64 }
        requires room { 0 < spare_of self.old }
        ensures who { who self.new ≡ who self.old }
        ensures seen { seen self.new ≡ settled (own_of self.old) (acquire_next (who self.old) set g AcquireAt.Checked (Outcome.Whether stale)) }
        ensures trace { self.new.trace ≡ self.old.trace }
    {
        if stale {
            let map = SetMap::new(self.lay, self.p, g, 0);
            self.start(
                AnyPhase::SetMap(map),
                Next::Acquire {
                    set,
                    g,
                    at: AcquireAt::Unmapped,
                },
            );
            return;
        }
        self.acquire_looked(set, g);
    }

    /// The page is mapped no more: its node leaves it if nobody there uses it.
    fn acquire_unmapped(&mut self, set: [u64; 4], g: u32)
        requires page { g < self.old.lay.pages }
        requires place { self.old.reader.place + 1 < 2 ^ 32 }
        requires done { self.old.reader.done + 1 < 2 ^ 64 }
        requires room { 0 < spare_of self.old }
        ensures who { who self.new ≡ who self.old }
        ensures seen { seen self.new ≡ settled (own_of self.old) (acquire_next (who self.old) set g AcquireAt.Unmapped Outcome.Nothing) }
        ensures trace { self.new.trace ≡ self.old.trace }
    {
        self.maps[g as usize] = 0;
        self.counts.unmaps = self.counts.unmaps.wrapping_add(1);
        let leave = Leave::new(self.lay, self.node(), g);
        self.start(
            AnyPhase::Leave(leave),
            Next::Acquire {
                set,
                g,
                at: AcquireAt::Left,
            },
        );
    }

    /// The page was looked at: its turn is given back.
    fn acquire_looked(&mut self, set: [u64; 4], g: u32)
        requires page { g < self.old.lay.pages }
        requires place { self.old.reader.place + 1 < 2 ^ 32 }
        requires done { self.old.reader.done + 1 < 2 ^ 64 }
        requires room { 0 < spare_of self.old }
        ensures who { who self.new ≡ who self.old }
        ensures seen { seen self.new ≡ settled (own_of self.old) (looked_at (who self.old) set g) }
        ensures trace { self.new.trace ≡ self.old.trace }
    {
        let give = GiveTurn::page(self.lay, self.node(), g);
        self.start(
            AnyPhase::Give(give),
            Next::Acquire {
                set,
                g,
                at: AcquireAt::Given,
            },
        );
    }
}
