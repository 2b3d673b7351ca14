// How a head's job begins.
ghost use Rattle.std.specs.Prelude.{◌≡◌, ◌+◌, ◌*◌, ◌^◌, ◌<◌, true, false};
ghost use Rattle.dsm_isa.specs.Rules.{ObjectsInside};
ghost use Rattle.dsm_local.specs.Readers.{GoesOn};
ghost use Rattle.dsm_words.specs.Place.{lay_of};

use super::Machine;
use crate::any_phase::AnyPhase;
use crate::fault::FaultAt;
use crate::point::{Access, Next, Point, Release, Signal};
use crate::release::ReleaseAt;
use dsm_clock::draw::Draw;
use dsm_clock::take::TakeTurn;
use dsm_isa::code::Code;
use dsm_local::action::Action;
use dsm_local::end::End;
use dsm_protocol::head::Head;
use dsm_sync::counter::Counter;
use dsm_sync::lock::LockTry;

impl Machine {
    ghost use Rattle.dsm_sync.specs.Counters.{counter_number, counters_of};
    ghost use Rattle.dsm_protocol.specs.Own.{sizes_in};
    ghost use Rattle.dsm_protocol.specs.Jobs.{Begin};
    ghost use Rattle.dsm_protocol.specs.Steps.{lock_job, look_job, release_job, fault_job, access_job, action_job, page_of};
    ghost use Rattle.dsm_protocol.specs.Processors.{settled, begun};
    ghost use Rattle.dsm_machine.specs.Faults.{is_store, address_of, register_of, page_at, made_job};
    ghost use Rattle.dsm_machine.specs.Releases.{counter_slack, signal_job, signal_number, signals_of, signal_slack};
    ghost use Rattle.dsm_machine.specs.Points.{head_number, heads_of, head_slack, has_begun, IsWithinLay};
    ghost use Rattle.dsm_machine.specs.Machines.{who, own_of, seen, spare_of};

    /// The job of a head begins.
    #[inline(never)]
    pub(super) fn begin_at(&mut self, code: &Code, head: Head)
        requires objects { ObjectsInside (sizes_in (lay_of self.old.lay)) code.now }
        requires head { head_number head < heads_of (lay_of self.old.lay) head }
        requires place { self.old.reader.place + 1 < 2 ^ 32 + head_slack head }
        requires done { self.old.reader.done + 1 < 2 ^ 64 + head_slack head }
        ensures who { who self.new ≡ who self.old }
        ensures seen { seen self.new ≡ begun (who self.old) code.now (own_of self.old) (Begin head) }
        ensures begun { has_begun self.new.point ≡ true }
        ensures trace { self.new.trace ≡ self.old.trace }
    {
        match head {
            Head::Instruction => self.begin_instruction(code),
            Head::Locking { l } => self.try_lock(l),
            Head::Looking { of, need } => self.look_at(of, need),
        }
    }

    /// An instruction begins.
    fn begin_instruction(&mut self, code: &Code)
        requires objects { ObjectsInside (sizes_in (lay_of self.old.lay)) code.now }
        ensures who { who self.new ≡ who self.old }
        ensures seen { seen self.new ≡ begun (who self.old) code.now (own_of self.old) (Begin Head.Instruction) }
        ensures begun { has_begun self.new.point ≡ true }
        ensures trace { self.new.trace ≡ self.old.trace }
    {
        let action = self.action(code);
        self.act(action);
    }

    /// An action begins.
    fn act(&mut self, action: Action)
        requires place { GoesOn action → self.old.reader.place + 1 < 2 ^ 32 }
        requires done { GoesOn action → self.old.reader.done + 1 < 2 ^ 64 }
        requires within { IsWithinLay (lay_of self.old.lay) action }
        ensures who { who self.new ≡ who self.old }
        ensures seen { seen self.new ≡ settled (own_of self.old) (action_job (who self.old) (own_of self.old) action) }
        ensures begun { has_begun self.new.point ≡ true }
        ensures trace { self.new.trace ≡ self.old.trace }
    {
        match action {
            Action::Set { d, v } => {
                let d = d.index() as u32;
                self.point = Point::Setting { d, v };
            }
            Action::Jump { to } => self.point = Point::Jumping { to },
            Action::LoadWord { d, w } => {
                let d = d.index() as u32;
                self.load(d, w);
            }
            Action::StoreWord { w, v } => self.store(w, v),
            Action::Print { v } => self.point = Point::Printing { v },
            Action::TakeLock { l } => self.try_lock(l),
            Action::GiveLock { l, k } => self.release(Signal::Free { l, k }),
            Action::Meet { b } => self.release(Signal::Meet {
                of: Counter::Barrier { b },
            }),
            Action::RaiseFlag { f } => self.release(Signal::Raise { f }),
            Action::WaitFlag { f, need } => self.look_at(Counter::Flag { f }, need),
            Action::Trap { kind } => {
                self.point = Point::Stopping {
                    end: End::Trapped {
                        at: self.reader.place,
                        kind,
                    },
                };
            }
            Action::Spend => self.point = Point::Stopping { end: End::Spent },
            Action::Arrive => self.release(Signal::Meet { of: Counter::Close }),
        }
    }

    /// The page of address `w`.
    pub(crate) fn page(&self, w: u32) -> u32
        requires { w < self.now.lay.pages * self.now.lay.words }
        ensures value { result ≡ page_of (who self.now) w }
        ensures within { result < self.now.lay.pages }
    {
        w / self.lay.words
    }

    /// A load begins: at once where its mapping allows it, else with a fault.
    fn load(&mut self, d: u32, w: u32)
        requires register { d < 16 }
        requires address { w < self.old.lay.pages * self.old.lay.words }
        requires place { self.old.reader.place + 1 < 2 ^ 32 }
        requires done { self.old.reader.done + 1 < 2 ^ 64 }
        ensures who { who self.new ≡ who self.old }
        ensures seen { seen self.new ≡ settled (own_of self.old) (access_job (who self.old) (own_of self.old) false w (made_job (who self.old) (Access.Load d w))) }
        ensures begun { has_begun self.new.point ≡ true }
        ensures trace { self.new.trace ≡ self.old.trace }
    {
        let g = self.page(w);
        let m = self.maps[g as usize];
        let access = Access::Load { d, w };
        if m == 1 || m == 2 {
            self.point = Point::Accessing { access };
            return;
        }
        self.fault(access);
    }

    /// A store begins: at once where its mapping allows it, else with a fault.
    fn store(&mut self, w: u32, v: u64)
        requires address { w < self.old.lay.pages * self.old.lay.words }
        requires place { self.old.reader.place + 1 < 2 ^ 32 }
        requires done { self.old.reader.done + 1 < 2 ^ 64 }
        ensures who { who self.new ≡ who self.old }
        ensures seen { seen self.new ≡ settled (own_of self.old) (access_job (who self.old) (own_of self.old) true w (made_job (who self.old) (Access.Store w v))) }
        ensures begun { has_begun self.new.point ≡ true }
        ensures trace { self.new.trace ≡ self.old.trace }
    {
        let g = self.page(w);
        let access = Access::Store { w, v };
        if self.maps[g as usize] == 2 {
            self.point = Point::Accessing { access };
            return;
        }
        self.fault(access);
    }

    /// A fault begins.
    #[tactic(auto, using(crate::proofs::Holding::held_fault))]
    fn fault(&mut self, access: Access)
        requires register { register_of access < 16 }
        requires address { address_of access < self.old.lay.pages * self.old.lay.words }
        requires place { self.old.reader.place + 1 < 2 ^ 32 }
        requires done { self.old.reader.done + 1 < 2 ^ 64 }
        ensures who { who self.new ≡ who self.old }
        ensures seen { seen self.new ≡ settled (own_of self.old) (fault_job (who self.old) (is_store access) (page_at (who self.old) access) (made_job (who self.old) access)) }
        ensures begun { has_begun self.new.point ≡ true }
        ensures trace { self.new.trace ≡ self.old.trace }
    {
        let g = self.page(access.address());
        let take = TakeTurn::page(self.lay, self.node(), g, self.p);
        self.start_free(
            AnyPhase::Take(take),
            Next::Fault {
                access,
                at: FaultAt::Taken,
            },
        );
    }

    /// A release begins.
    fn release(&mut self, signal: Signal)
        requires object { signal_number signal < signals_of (lay_of self.old.lay) signal }
        requires place { self.old.reader.place + 1 < 2 ^ 32 + signal_slack signal }
        requires done { self.old.reader.done + 1 < 2 ^ 64 + signal_slack signal }
        ensures who { who self.new ≡ who self.old }
        ensures seen { seen self.new ≡ settled (own_of self.old) (release_job (who self.old) (signal_job (who self.old) signal)) }
        ensures begun { has_begun self.new.point ≡ true }
        ensures trace { self.new.trace ≡ self.old.trace }
    {
        let draw = Draw::new(self.lay, self.node());
        let r = Release {
            signal,
            t0: 0,
            g: 0,
        };
        self.start_free(
            AnyPhase::Draw(draw),
            Next::Release {
                r,
                at: ReleaseAt::Drawn,
            },
        );
    }

    /// A try of lock `l` begins.
    #[tactic(auto, using(crate::proofs::Holding::held_lock))]
    fn try_lock(&mut self, l: u32)
        requires lock { l < self.old.lay.locks }
        requires place { self.old.reader.place + 1 < 2 ^ 32 }
        requires done { self.old.reader.done + 1 < 2 ^ 64 }
        ensures who { who self.new ≡ who self.old }
        ensures seen { seen self.new ≡ settled (own_of self.old) (lock_job (who self.old) l) }
        ensures begun { has_begun self.new.point ≡ true }
        ensures trace { self.new.trace ≡ self.old.trace }
    {
        let lock = LockTry::new(self.lay, l);
        self.start_free(AnyPhase::Lock(lock), Next::Try { l });
    }

    /// A look at an object begins.
    fn look_at(&mut self, of: Counter, need: u64)
        requires object { counter_number of < counters_of (lay_of self.old.lay) of }
        requires place { self.old.reader.place + 1 < 2 ^ 32 + counter_slack of }
        requires done { self.old.reader.done + 1 < 2 ^ 64 + counter_slack of }
        ensures who { who self.new ≡ who self.old }
        ensures seen { seen self.new ≡ settled (own_of self.old) (look_job (who self.old) of need) }
        ensures begun { has_begun self.new.point ≡ true }
        ensures trace { self.new.trace ≡ self.old.trace }
    {
        let look = self.look(of, need);
        self.start_free(AnyPhase::Look(look), Next::Look { of, need });
    }
}
