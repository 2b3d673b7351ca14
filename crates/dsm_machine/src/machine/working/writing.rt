// What a store's fault has and a load's has not: claims, entering exclusive mode, twins.
ghost use Rattle.std.specs.Prelude.{◌≡◌, ◌+◌, ◌*◌, ◌^◌, ◌<◌};

use crate::any_phase::AnyPhase;
use crate::machine::Machine;
use crate::outcome::Outcome;
use crate::point::{Access, Next};
use crate::write::WriteAt;
use dsm_clock::draw::Draw;
use dsm_clock::stamp::{Stamp, Which};
use dsm_directory::claim::Claim;
use dsm_directory::row::Row;
use dsm_directory::sharers::Sharers;
use dsm_directory::withdraw::Withdraw;
use dsm_exclusive::enter::Enter;
use dsm_incoming::overwrite::Overwrite;
use dsm_twin::make::MakeTwin;

impl Machine {
    ghost use Rattle.dsm_protocol.specs.Steps.{page_of, enter_job, entered_job, store_job};
    ghost use Rattle.dsm_protocol.specs.Processors.{settled};
    ghost use Rattle.dsm_machine.specs.Writes.{write_next, write_home};
    ghost use Rattle.dsm_machine.specs.Machines.{who, own_of, seen, spare_of};

    /// Takes the result of such a phase, of a fault before the store of `v` at address `w`.
    pub(super) fn write_on(&mut self, w: u32, v: u64, at: WriteAt, out: Outcome)
        requires address { w < self.old.lay.pages * self.old.lay.words }
        requires home { write_home at < self.old.lay.t.nodes }
        requires place { self.old.reader.place + 1 < 2 ^ 32 }
        requires done { self.old.reader.done + 1 < 2 ^ 64 }
        requires room { 0 < spare_of self.old }
        ensures who { who self.new ≡ who self.old }
        ensures seen { seen self.new ≡ settled (own_of self.old) (write_next (who self.old) w v at out) }
        ensures trace { self.new.trace ≡ self.old.trace }
    {
        match at {
            WriteAt::Sole { h } => self.sole(w, v, h, out.whether()),
            WriteAt::Claimed { h } => self.relook(w, v, h),
            WriteAt::Relooked { h } => self.relooked(w, v, h, out.row()),
            WriteAt::Withdrawn { h } => self.share_store(w, v, h),
            WriteAt::EnterDrawn { h } => self.enter_copy(w, v, h, out.number()),
            WriteAt::EnterCopied { t } => self.enter_copied(w, v, t),
            WriteAt::EnterStamped => self.enter_here(w, v),
            WriteAt::Entered => self.entered(w, v),
            WriteAt::TwinFound => self.twin_found(w, v, out.whether()),
            WriteAt::TwinMade => self.twin_made(w, v),
        }
    }

    /// No other node uses the page: where there is no twin either, its node claims it.
    fn sole(&mut self, w: u32, v: u64, h: u32, twin: bool)
        requires address { w < self.old.lay.pages * self.old.lay.words }
        requires home { h < self.old.lay.t.nodes }
        requires place { self.old.reader.place + 1 < 2 ^ 32 }
        requires done { self.old.reader.done + 1 < 2 ^ 64 }
        requires room { 0 < spare_of self.old }
        ensures who { who self.new ≡ who self.old }
        ensures seen { seen self.new ≡ settled (own_of self.old) (write_next (who self.old) w v (WriteAt.Sole h) (Outcome.Whether twin)) }
        ensures trace { self.new.trace ≡ self.old.trace }
    {
        if twin {
            self.share_store(w, v, h);
            return;
        }
        let claim = Claim::new(self.lay, self.node(), self.page(w));
        self.start(
            AnyPhase::Claim(claim),
            Next::Write {
                w,
                v,
                at: WriteAt::Claimed { h },
            },
        );
    }

    /// The page is claimed: the directory is read again.
    fn relook(&mut self, w: u32, v: u64, h: u32)
        requires address { w < self.old.lay.pages * self.old.lay.words }
        requires home { h < self.old.lay.t.nodes }
        requires place { self.old.reader.place + 1 < 2 ^ 32 }
        requires done { self.old.reader.done + 1 < 2 ^ 64 }
        requires room { 0 < spare_of self.old }
        ensures who { who self.new ≡ who self.old }
        ensures seen { seen self.new ≡ settled (own_of self.old) (write_next (who self.old) w v (WriteAt.Claimed h) Outcome.Nothing) }
        ensures trace { self.new.trace ≡ self.old.trace }
    {
        let sharers = Sharers::new(self.lay, self.node(), self.page(w));
        self.start(
            AnyPhase::Sharers(sharers),
            Next::Write {
                w,
                v,
                at: WriteAt::Relooked { h },
            },
        );
    }

    /// It was read: where another node has come to use the page, the claim is withdrawn.
    fn relooked(&mut self, w: u32, v: u64, h: u32, row: Row)
        requires address { w < self.old.lay.pages * self.old.lay.words }
        requires home { h < self.old.lay.t.nodes }
        requires place { self.old.reader.place + 1 < 2 ^ 32 }
        requires done { self.old.reader.done + 1 < 2 ^ 64 }
        requires room { 0 < spare_of self.old }
        ensures who { who self.new ≡ who self.old }
        ensures seen { seen self.new ≡ settled (own_of self.old) (write_next (who self.old) w v (WriteAt.Relooked h) (Outcome.Row row)) }
        ensures trace { self.new.trace ≡ self.old.trace }
    {
        if !row.others {
            self.enter(w, v, h);
            return;
        }
        let withdraw = Withdraw::new(self.lay, self.node(), self.page(w));
        self.start(
            AnyPhase::Withdraw(withdraw),
            Next::Write {
                w,
                v,
                at: WriteAt::Withdrawn { h },
            },
        );
    }

    /// The page is shared after all.
    fn share_store(&mut self, w: u32, v: u64, h: u32)
        requires address { w < self.old.lay.pages * self.old.lay.words }
        requires home { h < self.old.lay.t.nodes }
        requires place { self.old.reader.place + 1 < 2 ^ 32 }
        requires done { self.old.reader.done + 1 < 2 ^ 64 }
        requires room { 0 < spare_of self.old }
        ensures who { who self.new ≡ who self.old }
        ensures seen { seen self.new ≡ settled (own_of self.old) (write_next (who self.old) w v (WriteAt.Withdrawn h) Outcome.Nothing) }
        ensures trace { self.new.trace ≡ self.old.trace }
    {
        self.share(Access::Store { w, v }, h);
    }

    /// Its node will have the page alone: where it is not the home, it draws a time for the copy.
    fn enter(&mut self, w: u32, v: u64, h: u32)
        requires address { w < self.old.lay.pages * self.old.lay.words }
        requires home { h < self.old.lay.t.nodes }
        requires place { self.old.reader.place + 1 < 2 ^ 32 }
        requires done { self.old.reader.done + 1 < 2 ^ 64 }
        requires room { 0 < spare_of self.old }
        ensures who { who self.new ≡ who self.old }
        ensures seen { seen self.new ≡ settled (own_of self.old) (enter_job (who self.old) (page_of (who self.old) w) h (store_job (who self.old) w v)) }
        ensures trace { self.new.trace ≡ self.old.trace }
    {
        if self.node() == h {
            self.enter_here(w, v);
            return;
        }
        let draw = Draw::new(self.lay, self.node());
        self.start(
            AnyPhase::Draw(draw),
            Next::Write {
                w,
                v,
                at: WriteAt::EnterDrawn { h },
            },
        );
    }

    /// The time is `t`: the home's words overwrite the frame.
    fn enter_copy(&mut self, w: u32, v: u64, h: u32, t: u64)
        requires address { w < self.old.lay.pages * self.old.lay.words }
        requires home { h < self.old.lay.t.nodes }
        requires place { self.old.reader.place + 1 < 2 ^ 32 }
        requires done { self.old.reader.done + 1 < 2 ^ 64 }
        requires room { 0 < spare_of self.old }
        ensures who { who self.new ≡ who self.old }
        ensures seen { seen self.new ≡ settled (own_of self.old) (write_next (who self.old) w v (WriteAt.EnterDrawn h) (Outcome.Number t)) }
        ensures trace { self.new.trace ≡ self.old.trace }
    {
        let n = self.node();
        let g = self.page(w);
        let overwrite = Overwrite::new(self.lay.with_home(g, h), n, g);
        self.start(
            AnyPhase::OpenOverwrite { n, g, overwrite },
            Next::Write {
                w,
                v,
                at: WriteAt::EnterCopied { t },
            },
        );
    }

    /// The frame is overwritten: the time is noted.
    fn enter_copied(&mut self, w: u32, v: u64, t: u64)
        requires address { w < self.old.lay.pages * self.old.lay.words }
        requires place { self.old.reader.place + 1 < 2 ^ 32 }
        requires done { self.old.reader.done + 1 < 2 ^ 64 }
        requires room { 0 < spare_of self.old }
        ensures who { who self.new ≡ who self.old }
        ensures seen { seen self.new ≡ settled (own_of self.old) (write_next (who self.old) w v (WriteAt.EnterCopied t) Outcome.Nothing) }
        ensures trace { self.new.trace ≡ self.old.trace }
    {
        self.counts.overwrites = self.counts.overwrites.wrapping_add(1);
        let stamp = Stamp::new(self.lay, Which::Update, self.node(), self.page(w), t);
        self.start(
            AnyPhase::Stamp(stamp),
            Next::Write {
                w,
                v,
                at: WriteAt::EnterStamped,
            },
        );
    }

    /// The frame is as the home's: the word of the directory says that its node has the page alone.
    fn enter_here(&mut self, w: u32, v: u64)
        requires address { w < self.old.lay.pages * self.old.lay.words }
        requires place { self.old.reader.place + 1 < 2 ^ 32 }
        requires done { self.old.reader.done + 1 < 2 ^ 64 }
        requires room { 0 < spare_of self.old }
        ensures who { who self.new ≡ who self.old }
        ensures seen { seen self.new ≡ settled (own_of self.old) (entered_job (who self.old) (page_of (who self.old) w) (store_job (who self.old) w v)) }
        ensures trace { self.new.trace ≡ self.old.trace }
    {
        let n = self.node();
        let g = self.page(w);
        let enter = Enter::new(self.lay.with_home(g, n), n, g);
        self.start(
            AnyPhase::Enter(enter),
            Next::Write {
                w,
                v,
                at: WriteAt::Entered,
            },
        );
    }

    /// Its node has the page alone.
    fn entered(&mut self, w: u32, v: u64)
        requires address { w < self.old.lay.pages * self.old.lay.words }
        requires place { self.old.reader.place + 1 < 2 ^ 32 }
        requires done { self.old.reader.done + 1 < 2 ^ 64 }
        requires room { 0 < spare_of self.old }
        ensures who { who self.new ≡ who self.old }
        ensures seen { seen self.new ≡ settled (own_of self.old) (write_next (who self.old) w v WriteAt.Entered Outcome.Nothing) }
        ensures trace { self.new.trace ≡ self.old.trace }
    {
        self.counts.enters = self.counts.enters.wrapping_add(1);
        self.alone(Access::Store { w, v });
    }

    /// Whether there is a twin is known: where there is none, one is made.
    fn twin_found(&mut self, w: u32, v: u64, twin: bool)
        requires address { w < self.old.lay.pages * self.old.lay.words }
        requires place { self.old.reader.place + 1 < 2 ^ 32 }
        requires done { self.old.reader.done + 1 < 2 ^ 64 }
        requires room { 0 < spare_of self.old }
        ensures who { who self.new ≡ who self.old }
        ensures seen { seen self.new ≡ settled (own_of self.old) (write_next (who self.old) w v WriteAt.TwinFound (Outcome.Whether twin)) }
        ensures trace { self.new.trace ≡ self.old.trace }
    {
        if twin {
            self.shared(Access::Store { w, v });
            return;
        }
        let make = MakeTwin::new(self.lay, self.node(), self.page(w));
        self.start(
            AnyPhase::MakeTwin(make),
            Next::Write {
                w,
                v,
                at: WriteAt::TwinMade,
            },
        );
    }

    /// The twin is made.
    fn twin_made(&mut self, w: u32, v: u64)
        requires address { w < self.old.lay.pages * self.old.lay.words }
        requires place { self.old.reader.place + 1 < 2 ^ 32 }
        requires done { self.old.reader.done + 1 < 2 ^ 64 }
        requires room { 0 < spare_of self.old }
        ensures who { who self.new ≡ who self.old }
        ensures seen { seen self.new ≡ settled (own_of self.old) (write_next (who self.old) w v WriteAt.TwinMade Outcome.Nothing) }
        ensures trace { self.new.trace ≡ self.old.trace }
    {
        self.counts.twins = self.counts.twins.wrapping_add(1);
        self.shared(Access::Store { w, v });
    }
}
