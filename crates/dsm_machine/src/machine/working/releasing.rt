// Release work.
ghost use Rattle.std.specs.Prelude.{◌≡◌, ◌+◌, ◌^◌, ◌<◌, ◌≤◌, true};
ghost use Rattle.dsm_words.specs.Place.{lay_of};

use crate::any_phase::AnyPhase;
use crate::machine::Machine;
use crate::machine::dirty::first_page;
use crate::outcome::Outcome;
use crate::point::{Next, Release, Signal};
use crate::release::ReleaseAt;
use dsm_clock::draw::Draw;
use dsm_clock::give::GiveTurn;
use dsm_clock::stamp::{Stamp, Which};
use dsm_clock::take::TakeTurn;
use dsm_directory::home::FindHome;
use dsm_directory::my_dir::MyDir;
use dsm_exclusive::nle::TakeNle;
use dsm_frames::mapping::SetMap;
use dsm_notice::post::Post;
use dsm_outgoing::flush::Flush;
use dsm_outgoing::last::LastFlush;
use dsm_sync::arrive::Arrive;
use dsm_sync::counter::Counter;
use dsm_sync::set::SetFlag;
use dsm_sync::unlock::Unlock;
use dsm_twin::drop::DropTwin;
use dsm_twin::has::HasTwin;

impl Machine {
    ghost use Rattle.dsm_sync.specs.Counters.{counter_number, counters_of};
    ghost use Rattle.dsm_protocol.specs.Steps.{lower_job, drop_job, sent_job};
    ghost use Rattle.dsm_protocol.specs.Processors.{settled};
    ghost use Rattle.dsm_machine.specs.Releases.{release_next, release_home, signal_job, signal_number, signals_of, signal_slack, counter_slack, pages_left, page_over};
    ghost use Rattle.dsm_machine.specs.Machines.{who, own_of, seen, spare_of};
    ghost use Rattle.dsm_machine.specs.Results.{node_in};

    /// Takes the result of a phase of a release.
    pub(super) fn release_on(&mut self, r: Release, at: ReleaseAt, out: Outcome)
        requires page { r.g < self.old.lay.pages }
        requires home { release_home at < self.old.lay.t.nodes }
        requires object { signal_number r.signal < signals_of (lay_of self.old.lay) r.signal }
        requires found { node_in out < self.old.lay.t.nodes }
        requires place { self.old.reader.place + 1 < 2 ^ 32 + signal_slack r.signal }
        requires done { self.old.reader.done + 1 < 2 ^ 64 + signal_slack r.signal }
        requires room { 0 < spare_of self.old }
        ensures who { who self.new ≡ who self.old }
        ensures seen { seen self.new ≡ settled (own_of self.old) (release_next (who self.old) r at out) }
        ensures trace { self.new.trace ≡ self.old.trace }
    {
        match at {
            ReleaseAt::Drawn => self.drawn(r, out.number()),
            ReleaseAt::Joined => self.joined(r, out.pages()),
            ReleaseAt::Taken => self.look_page(r),
            ReleaseAt::Dir => self.look_home(r, out.number()),
            ReleaseAt::Home => self.tell(r, out.node()),
            ReleaseAt::Last { h } => self.flushed_at(r, h, out.number()),
            ReleaseAt::Time { h } => self.flush_at(r, h, out.number()),
            ReleaseAt::Twin { h, t } => self.twin_known(r, h, t, out.whether()),
            ReleaseAt::Flushed { h, t } => self.flushed(r, h, t),
            ReleaseAt::Stamped { h, flushed } => self.stamped(r, h, flushed),
            ReleaseAt::Posted { h: _, flushed } => self.lower(r, flushed),
            ReleaseAt::Lowered { flushed } => self.lowered(r, flushed),
            ReleaseAt::Dropped => self.done_page(r),
            ReleaseAt::Given => self.given(r),
        }
    }

    /// It began at time `t0`.
    #[tactic(auto, using(crate::proofs::Releasing::take_nle_open))]
    fn drawn(&mut self, r: Release, t0: u64)
        requires page { r.g < self.old.lay.pages }
        requires object { signal_number r.signal < signals_of (lay_of self.old.lay) r.signal }
        requires place { self.old.reader.place + 1 < 2 ^ 32 + signal_slack r.signal }
        requires done { self.old.reader.done + 1 < 2 ^ 64 + signal_slack r.signal }
        requires room { 0 < spare_of self.old }
        ensures who { who self.new ≡ who self.old }
        ensures seen { seen self.new ≡ settled (own_of self.old) (release_next (who self.old) r ReleaseAt.Drawn (Outcome.Number t0)) }
        ensures trace { self.new.trace ≡ self.old.trace }
    {
        let nle = TakeNle::new(self.lay, self.p);
        let r = Release {
            signal: r.signal,
            t0,
            g: 0,
        };
        self.start(
            AnyPhase::TakeNle(nle),
            Next::Release {
                r,
                at: ReleaseAt::Joined,
            },
        );
    }

    /// The pages of a set are dirty too.
    fn joined(&mut self, r: Release, set: [u64; 4])
        requires object { signal_number r.signal < signals_of (lay_of self.old.lay) r.signal }
        requires place { self.old.reader.place + 1 < 2 ^ 32 + signal_slack r.signal }
        requires done { self.old.reader.done + 1 < 2 ^ 64 + signal_slack r.signal }
        requires room { 0 < spare_of self.old }
        ensures who { who self.new ≡ who self.old }
        ensures seen { seen self.new ≡ settled (own_of self.old) (release_next (who self.old) r ReleaseAt.Joined (Outcome.Pages set)) }
        ensures trace { self.new.trace ≡ self.old.trace }
    {
        self.join(set);
        self.to_page(r.signal, r.t0, 0);
    }

    /// To the first dirty page from page `from` on, or to the signal.
    fn to_page(&mut self, signal: Signal, t0: u64, from: u32)
        requires from { from ≤ self.old.lay.pages }
        requires object { signal_number signal < signals_of (lay_of self.old.lay) signal }
        requires place { self.old.reader.place + 1 < 2 ^ 32 + signal_slack signal }
        requires done { self.old.reader.done + 1 < 2 ^ 64 + signal_slack signal }
        requires room { 0 < spare_of self.old }
        ensures who { who self.new ≡ who self.old }
        ensures seen { seen self.new ≡ settled (own_of self.old) (pages_left (who self.old) signal t0 from) }
        ensures trace { self.new.trace ≡ self.old.trace }
    {
        match first_page(self.dirty, from, self.lay.pages) {
            Some(g) => {
                let take = TakeTurn::page(self.lay, self.node(), g, self.p);
                let r = Release { signal, t0, g };
                self.start(
                    AnyPhase::Take(take),
                    Next::Release {
                        r,
                        at: ReleaseAt::Taken,
                    },
                );
            }
            None => self.signal(signal),
        }
    }

    /// The signal behind the release.
    fn signal(&mut self, signal: Signal)
        requires object { signal_number signal < signals_of (lay_of self.old.lay) signal }
        requires place { self.old.reader.place + 1 < 2 ^ 32 + signal_slack signal }
        requires done { self.old.reader.done + 1 < 2 ^ 64 + signal_slack signal }
        requires room { 0 < spare_of self.old }
        ensures who { who self.new ≡ who self.old }
        ensures seen { seen self.new ≡ settled (own_of self.old) (signal_job (who self.old) signal) }
        ensures trace { self.new.trace ≡ self.old.trace }
    {
        match signal {
            Signal::Free { l, k } => {
                let unlock = Unlock::new(self.lay, l, k);
                self.start(AnyPhase::Unlock(unlock), Next::Signal { signal });
            }
            Signal::Meet { of } => self.meet(of),
            Signal::Raise { f } => {
                let set = SetFlag::new(self.lay, f);
                self.start(AnyPhase::SetFlag(set), Next::Signal { signal });
            }
        }
    }

    /// It arrives at an object.
    fn meet(&mut self, of: Counter)
        requires object { counter_number of < counters_of (lay_of self.old.lay) of }
        requires place { self.old.reader.place + 1 < 2 ^ 32 + counter_slack of }
        requires done { self.old.reader.done + 1 < 2 ^ 64 + counter_slack of }
        requires room { 0 < spare_of self.old }
        ensures who { who self.new ≡ who self.old }
        ensures seen { seen self.new ≡ settled (own_of self.old) (signal_job (who self.old) (Signal.Meet of)) }
        ensures trace { self.new.trace ≡ self.old.trace }
    {
        let signal = Signal::Meet { of };
        let phase = match of {
            Counter::Barrier { b } => AnyPhase::Arrive(Arrive::barrier(self.lay, b)),
            Counter::Flag { f } => AnyPhase::SetFlag(SetFlag::new(self.lay, f)),
            Counter::Close => AnyPhase::Arrive(Arrive::close(self.lay)),
        };
        self.start(phase, Next::Signal { signal });
    }

    /// The turn of the page is taken.
    fn look_page(&mut self, r: Release)
        requires page { r.g < self.old.lay.pages }
        requires object { signal_number r.signal < signals_of (lay_of self.old.lay) r.signal }
        requires place { self.old.reader.place + 1 < 2 ^ 32 + signal_slack r.signal }
        requires done { self.old.reader.done + 1 < 2 ^ 64 + signal_slack r.signal }
        requires room { 0 < spare_of self.old }
        ensures who { who self.new ≡ who self.old }
        ensures seen { seen self.new ≡ settled (own_of self.old) (release_next (who self.old) r ReleaseAt.Taken Outcome.Nothing) }
        ensures trace { self.new.trace ≡ self.old.trace }
    {
        let dir = MyDir::new(self.lay, self.node(), r.g);
        self.start(
            AnyPhase::MyDir(dir),
            Next::Release {
                r,
                at: ReleaseAt::Dir,
            },
        );
    }

    /// Its node's word of the directory is `d`: a page that it has alone need not be sent.
    fn look_home(&mut self, r: Release, d: u64)
        requires page { r.g < self.old.lay.pages }
        requires object { signal_number r.signal < signals_of (lay_of self.old.lay) r.signal }
        requires place { self.old.reader.place + 1 < 2 ^ 32 + signal_slack r.signal }
        requires done { self.old.reader.done + 1 < 2 ^ 64 + signal_slack r.signal }
        requires room { 0 < spare_of self.old }
        ensures who { who self.new ≡ who self.old }
        ensures seen { seen self.new ≡ settled (own_of self.old) (release_next (who self.old) r ReleaseAt.Dir (Outcome.Number d)) }
        ensures trace { self.new.trace ≡ self.old.trace }
    {
        if d == 2 {
            self.done_page(r);
            return;
        }
        let home = FindHome::new(self.lay, self.node(), r.g);
        self.start(
            AnyPhase::FindHome(home),
            Next::Release {
                r,
                at: ReleaseAt::Home,
            },
        );
    }

    /// The home is known.
    fn tell(&mut self, r: Release, h: u32)
        requires page { r.g < self.old.lay.pages }
        requires home { h < self.old.lay.t.nodes }
        requires object { signal_number r.signal < signals_of (lay_of self.old.lay) r.signal }
        requires place { self.old.reader.place + 1 < 2 ^ 32 + signal_slack r.signal }
        requires done { self.old.reader.done + 1 < 2 ^ 64 + signal_slack r.signal }
        requires room { 0 < spare_of self.old }
        ensures who { who self.new ≡ who self.old }
        ensures seen { seen self.new ≡ settled (own_of self.old) (release_next (who self.old) r ReleaseAt.Home (Outcome.Node h)) }
        ensures trace { self.new.trace ≡ self.old.trace }
    {
        let last = LastFlush::new(self.lay, self.node(), r.g);
        self.start(
            AnyPhase::LastFlush(last),
            Next::Release {
                r,
                at: ReleaseAt::Last { h },
            },
        );
    }

    /// Its node flushed the page at time `last`.
    fn flushed_at(&mut self, r: Release, h: u32, last: u64)
        requires page { r.g < self.old.lay.pages }
        requires home { h < self.old.lay.t.nodes }
        requires object { signal_number r.signal < signals_of (lay_of self.old.lay) r.signal }
        requires place { self.old.reader.place + 1 < 2 ^ 32 + signal_slack r.signal }
        requires done { self.old.reader.done + 1 < 2 ^ 64 + signal_slack r.signal }
        requires room { 0 < spare_of self.old }
        ensures who { who self.new ≡ who self.old }
        ensures seen { seen self.new ≡ settled (own_of self.old) (release_next (who self.old) r (ReleaseAt.Last h) (Outcome.Number last)) }
        ensures trace { self.new.trace ≡ self.old.trace }
    {
        if r.t0 < last {
            self.counts.early = self.counts.early.wrapping_add(1);
            self.lower(r, false);
            return;
        }
        let draw = Draw::new(self.lay, self.node());
        self.start(
            AnyPhase::Draw(draw),
            Next::Release {
                r,
                at: ReleaseAt::Time { h },
            },
        );
    }

    /// The time of the flush is `t`.
    fn flush_at(&mut self, r: Release, h: u32, t: u64)
        requires page { r.g < self.old.lay.pages }
        requires home { h < self.old.lay.t.nodes }
        requires object { signal_number r.signal < signals_of (lay_of self.old.lay) r.signal }
        requires place { self.old.reader.place + 1 < 2 ^ 32 + signal_slack r.signal }
        requires done { self.old.reader.done + 1 < 2 ^ 64 + signal_slack r.signal }
        requires room { 0 < spare_of self.old }
        ensures who { who self.new ≡ who self.old }
        ensures seen { seen self.new ≡ settled (own_of self.old) (release_next (who self.old) r (ReleaseAt.Time h) (Outcome.Number t)) }
        ensures trace { self.new.trace ≡ self.old.trace }
    {
        if self.node() == h {
            self.sent(r, h, t, false);
            return;
        }
        let has = HasTwin::new(self.lay, self.node(), r.g);
        self.start(
            AnyPhase::HasTwin(has),
            Next::Release {
                r,
                at: ReleaseAt::Twin { h, t },
            },
        );
    }

    /// Whether there is a twin is known.
    fn twin_known(&mut self, r: Release, h: u32, t: u64, twin: bool)
        requires page { r.g < self.old.lay.pages }
        requires home { h < self.old.lay.t.nodes }
        requires object { signal_number r.signal < signals_of (lay_of self.old.lay) r.signal }
        requires place { self.old.reader.place + 1 < 2 ^ 32 + signal_slack r.signal }
        requires done { self.old.reader.done + 1 < 2 ^ 64 + signal_slack r.signal }
        requires room { 0 < spare_of self.old }
        ensures who { who self.new ≡ who self.old }
        ensures seen { seen self.new ≡ settled (own_of self.old) (release_next (who self.old) r (ReleaseAt.Twin h t) (Outcome.Whether twin)) }
        ensures trace { self.new.trace ≡ self.old.trace }
    {
        if twin {
            self.flush(r, h, t);
            return;
        }
        self.sent(r, h, t, false);
    }

    /// The twin is flushed.
    #[tactic(auto, using(crate::proofs::Releasing::flush_open))]
    fn flush(&mut self, r: Release, h: u32, t: u64)
        requires page { r.g < self.old.lay.pages }
        requires home { h < self.old.lay.t.nodes }
        requires object { signal_number r.signal < signals_of (lay_of self.old.lay) r.signal }
        requires place { self.old.reader.place + 1 < 2 ^ 32 + signal_slack r.signal }
        requires done { self.old.reader.done + 1 < 2 ^ 64 + signal_slack r.signal }
        requires room { 0 < spare_of self.old }
        ensures who { who self.new ≡ who self.old }
        ensures seen { seen self.new ≡ settled (own_of self.old) (release_next (who self.old) r (ReleaseAt.Twin h t) (Outcome.Whether true)) }
        ensures trace { self.new.trace ≡ self.old.trace }
    {
        let flush = Flush::new(self.lay.with_home(r.g, h), self.node(), r.g);
        self.start(
            AnyPhase::Flush(flush),
            Next::Release {
                r,
                at: ReleaseAt::Flushed { h, t },
            },
        );
    }

    /// A twin was flushed.
    fn flushed(&mut self, r: Release, h: u32, t: u64)
        requires page { r.g < self.old.lay.pages }
        requires home { h < self.old.lay.t.nodes }
        requires object { signal_number r.signal < signals_of (lay_of self.old.lay) r.signal }
        requires place { self.old.reader.place + 1 < 2 ^ 32 + signal_slack r.signal }
        requires done { self.old.reader.done + 1 < 2 ^ 64 + signal_slack r.signal }
        requires room { 0 < spare_of self.old }
        ensures who { who self.new ≡ who self.old }
        ensures seen { seen self.new ≡ settled (own_of self.old) (release_next (who self.old) r (ReleaseAt.Flushed h t) Outcome.Nothing) }
        ensures trace { self.new.trace ≡ self.old.trace }
    {
        self.counts.flushes = self.counts.flushes.wrapping_add(1);
        self.sent(r, h, t, true);
    }

    /// The page is sent: the time is noted.
    fn sent(&mut self, r: Release, h: u32, t: u64, flushed: bool)
        requires page { r.g < self.old.lay.pages }
        requires home { h < self.old.lay.t.nodes }
        requires object { signal_number r.signal < signals_of (lay_of self.old.lay) r.signal }
        requires place { self.old.reader.place + 1 < 2 ^ 32 + signal_slack r.signal }
        requires done { self.old.reader.done + 1 < 2 ^ 64 + signal_slack r.signal }
        requires room { 0 < spare_of self.old }
        ensures who { who self.new ≡ who self.old }
        ensures seen { seen self.new ≡ settled (own_of self.old) (sent_job (who self.old) r.g h t flushed (page_over (who self.old) r)) }
        ensures trace { self.new.trace ≡ self.old.trace }
    {
        let stamp = Stamp::new(self.lay, Which::Flush, self.node(), r.g, t);
        self.start(
            AnyPhase::Stamp(stamp),
            Next::Release {
                r,
                at: ReleaseAt::Stamped { h, flushed },
            },
        );
    }

    /// The time is noted: the others are told.
    #[tactic(auto, using(crate::proofs::Releasing::settled_moment))]
    fn stamped(&mut self, r: Release, h: u32, flushed: bool)
        requires page { r.g < self.old.lay.pages }
        requires home { h < self.old.lay.t.nodes }
        requires object { signal_number r.signal < signals_of (lay_of self.old.lay) r.signal }
        requires place { self.old.reader.place + 1 < 2 ^ 32 + signal_slack r.signal }
        requires done { self.old.reader.done + 1 < 2 ^ 64 + signal_slack r.signal }
        requires room { 0 < spare_of self.old }
        ensures who { who self.new ≡ who self.old }
        ensures seen { seen self.new ≡ settled (own_of self.old) (release_next (who self.old) r (ReleaseAt.Stamped h flushed) Outcome.Nothing) }
        ensures trace { self.new.trace ≡ self.old.trace }
    {
        let post = Post::new(self.lay.with_home(r.g, h), self.node(), r.g);
        self.start(
            AnyPhase::Post(post),
            Next::Release {
                r,
                at: ReleaseAt::Posted { h, flushed },
            },
        );
    }

    /// A page that may be written may only be read now.
    fn lower(&mut self, r: Release, flushed: bool)
        requires page { r.g < self.old.lay.pages }
        requires object { signal_number r.signal < signals_of (lay_of self.old.lay) r.signal }
        requires place { self.old.reader.place + 1 < 2 ^ 32 + signal_slack r.signal }
        requires done { self.old.reader.done + 1 < 2 ^ 64 + signal_slack r.signal }
        requires room { 0 < spare_of self.old }
        ensures who { who self.new ≡ who self.old }
        ensures seen { seen self.new ≡ settled (own_of self.old) (lower_job (who self.old) r.g (drop_job (who self.old) r.g flushed (page_over (who self.old) r))) }
        ensures trace { self.new.trace ≡ self.old.trace }
    {
        if self.maps[r.g as usize] == 2 {
            let map = SetMap::new(self.lay, self.p, r.g, 1);
            self.start(
                AnyPhase::SetMap(map),
                Next::Release {
                    r,
                    at: ReleaseAt::Lowered { flushed },
                },
            );
            return;
        }
        self.drop_twin(r, flushed);
    }

    /// The page may only be read now.
    fn lowered(&mut self, r: Release, flushed: bool)
        requires page { r.g < self.old.lay.pages }
        requires object { signal_number r.signal < signals_of (lay_of self.old.lay) r.signal }
        requires place { self.old.reader.place + 1 < 2 ^ 32 + signal_slack r.signal }
        requires done { self.old.reader.done + 1 < 2 ^ 64 + signal_slack r.signal }
        requires room { 0 < spare_of self.old }
        ensures who { who self.new ≡ who self.old }
        ensures seen { seen self.new ≡ settled (own_of self.old) (release_next (who self.old) r (ReleaseAt.Lowered flushed) Outcome.Nothing) }
        ensures trace { self.new.trace ≡ self.old.trace }
    {
        self.maps[r.g as usize] = 1;
        self.drop_twin(r, flushed);
    }

    /// A twin that was flushed is dropped.
    fn drop_twin(&mut self, r: Release, flushed: bool)
        requires page { r.g < self.old.lay.pages }
        requires object { signal_number r.signal < signals_of (lay_of self.old.lay) r.signal }
        requires place { self.old.reader.place + 1 < 2 ^ 32 + signal_slack r.signal }
        requires done { self.old.reader.done + 1 < 2 ^ 64 + signal_slack r.signal }
        requires room { 0 < spare_of self.old }
        ensures who { who self.new ≡ who self.old }
        ensures seen { seen self.new ≡ settled (own_of self.old) (drop_job (who self.old) r.g flushed (page_over (who self.old) r)) }
        ensures trace { self.new.trace ≡ self.old.trace }
    {
        if flushed {
            let drop = DropTwin::new(self.lay, self.node(), r.g);
            self.start(
                AnyPhase::DropTwin(drop),
                Next::Release {
                    r,
                    at: ReleaseAt::Dropped,
                },
            );
            return;
        }
        self.done_page(r);
    }

    /// The page is done.
    fn done_page(&mut self, r: Release)
        requires page { r.g < self.old.lay.pages }
        requires object { signal_number r.signal < signals_of (lay_of self.old.lay) r.signal }
        requires place { self.old.reader.place + 1 < 2 ^ 32 + signal_slack r.signal }
        requires done { self.old.reader.done + 1 < 2 ^ 64 + signal_slack r.signal }
        requires room { 0 < spare_of self.old }
        ensures who { who self.new ≡ who self.old }
        ensures seen { seen self.new ≡ settled (own_of self.old) (page_over (who self.old) r) }
        ensures trace { self.new.trace ≡ self.old.trace }
    {
        let give = GiveTurn::page(self.lay, self.node(), r.g);
        self.start(
            AnyPhase::Give(give),
            Next::Release {
                r,
                at: ReleaseAt::Given,
            },
        );
    }

    /// The turn is given back.
    fn given(&mut self, r: Release)
        requires page { r.g < self.old.lay.pages }
        requires object { signal_number r.signal < signals_of (lay_of self.old.lay) r.signal }
        requires place { self.old.reader.place + 1 < 2 ^ 32 + signal_slack r.signal }
        requires done { self.old.reader.done + 1 < 2 ^ 64 + signal_slack r.signal }
        requires room { 0 < spare_of self.old }
        ensures who { who self.new ≡ who self.old }
        ensures seen { seen self.new ≡ settled (own_of self.old) (release_next (who self.old) r ReleaseAt.Given Outcome.Nothing) }
        ensures trace { self.new.trace ≡ self.old.trace }
    {
        self.clean(r.g);
        self.to_page(r.signal, r.t0, r.g + 1);
    }
}
