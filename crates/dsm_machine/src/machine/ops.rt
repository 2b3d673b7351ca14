// The next operation of a processor.
ghost use Rattle.std.specs.Prelude.{◌≡◌, ◌+◌, ◌*◌, ◌<◌, ◌^◌, true, false, None};
ghost use Rattle.dsm_isa.specs.Rules.{ObjectsInside};
ghost use Rattle.dsm_local.specs.Readers.{next_action, GoesOn};
ghost use Rattle.dsm_words.specs.declared.item.Item.TheVariants.{Stop, Clock, Turn};
ghost use Rattle.dsm_words.specs.Op.{place_of};
ghost use Rattle.dsm_words.specs.Place.{lay_of, place, total};
ghost use Rattle.dsm_words.specs.Script.{Get, Put, Change, Add, op_of, first, is_open};
ghost use Rattle.dsm_sync.specs.Counters.{counter_number, counters_of};

use super::Machine;
use crate::point::{Access, Point};
use dsm_clock::draw::Draw;
use dsm_clock::take::TakeTurn;
use dsm_isa::code::Code;
use dsm_local::action::Action;
use dsm_local::setting::Setting;
use dsm_protocol::head::Head;
use dsm_sync::counter::Counter;
use dsm_sync::lock::LockTry;
use dsm_sync::look::Look;
use dsm_words::item::Item;
use dsm_words::op::Op;
use dsm_words::phase::Phase;

impl Machine {
    ghost use Rattle.dsm_sync.specs.Counting.{look_script, look_rest, look_lay};
    ghost use Rattle.dsm_sync.specs.Locks.{lock_rest, lock_lay};
    ghost use Rattle.dsm_protocol.specs.Own.{setting_of, sizes_in, node_of, mapping};
    ghost use Rattle.dsm_protocol.specs.Steps.{address_item, action_job, access_job, page_of};
    ghost use Rattle.dsm_machine.specs.Faults.{address_of, made_job};
    ghost use Rattle.dsm_machine.specs.Points.{head_number, heads_of, has_begun, IsWithinLay};
    ghost use Rattle.dsm_protocol.specs.Processors.{begun, ending};
    ghost use Rattle.dsm_protocol.specs.Jobs.{Job, Begin, first_act};
    ghost use Rattle.dsm_machine.specs.Machines.{who, own_of, seen};

    /// What a plain reader of its code is told.
    pub(super) fn setting(&self) -> Setting
        ensures { result ≡ setting_of (who self.now) }
    {
        Setting {
            size: self.lay.pages * self.lay.words,
            p: self.p,
            procs: self.lay.t.all(),
            turns: self.limits.turns,
        }
    }

    /// The load of the stop word.
    pub(super) fn look_at_stop(&self) -> Op
        ensures op { result ≡ op_of (lay_of self.now.lay) (Get Stop) }
        ensures within { place_of result < total (lay_of self.now.lay) }
    {
        Op::Load { at: 0 }
    }

    /// The exchange of the stop word from 0 to the processor's number and 1.
    pub(super) fn stop_all(&self) -> Op
        ensures op { result ≡ op_of (lay_of self.now.lay) (Change Stop 0 (self.now.p + 1)) }
        ensures within { place_of result < total (lay_of self.now.lay) }
    {
        Op::Exchange {
            at: self.lay.place(Item::Stop),
            old: 0,
            new: u64::from(self.p) + 1,
        }
    }

    /// What comes next in a try of a lock.
    pub(super) fn op_of_try(&self, lock: LockTry) -> Op
        requires open { is_open (lock_rest lock) ≡ true }
        requires lay { lock_lay lock ≡ lay_of self.now.lay }
        ensures op { result ≡ op_of (lay_of self.now.lay) (first (lock_rest lock)) }
        ensures within { place_of result < total (lay_of self.now.lay) }
    {
        lock.next()
    }

    /// A look at an object.
    pub(super) fn look(&self, of: Counter, need: u64) -> Look
        requires { counter_number of < counters_of (lay_of self.now.lay) of }
        ensures rest { look_rest result ≡ look_script of need }
        ensures lay { look_lay result ≡ lay_of self.now.lay }
    {
        match of {
            Counter::Barrier { b } => Look::barrier(self.lay, b, need),
            Counter::Flag { f } => Look::flag(self.lay, f, need),
            Counter::Close => Look::close(self.lay, need),
        }
    }

    /// The operation of a look.
    fn op_of_look(&self, of: Counter, need: u64) -> Op
        requires { counter_number of < counters_of (lay_of self.now.lay) of }
        ensures op { result ≡ op_of (lay_of self.now.lay) (first (look_script of need)) }
        ensures within { place_of result < total (lay_of self.now.lay) }
    {
        self.look(of, need).next()
    }

    /// The first operation at a head.
    pub(super) fn op_at(&self, code: &Code, head: Head) -> Op
        requires objects { ObjectsInside (sizes_in (lay_of self.now.lay)) code.now }
        requires head { head_number head < heads_of (lay_of self.now.lay) head }
        ensures op { result ≡ op_of (lay_of self.now.lay) (first_act (begun (who self.now) code.now (own_of self.now) (Begin head)).todo) }
        ensures within { place_of result < total (lay_of self.now.lay) }
    {
        match head {
            Head::Instruction => self.first_op(code),
            Head::Locking { l } => self.op_of_try(LockTry::new(self.lay, l)),
            Head::Looking { of, need } => self.op_of_look(of, need),
        }
    }

    /// The action of the instruction that begins, and its operation.
    fn first_op(&self, code: &Code) -> Op
        requires { ObjectsInside (sizes_in (lay_of self.now.lay)) code.now }
        ensures op { result ≡ op_of (lay_of self.now.lay) (first_act (begun (who self.now) code.now (own_of self.now) (Begin Head.Instruction)).todo) }
        ensures within { place_of result < total (lay_of self.now.lay) }
    {
        self.op_of_action(self.action(code))
    }

    /// What the instruction that begins does.
    #[inline(always)]
    pub(super) fn action(&self, code: &Code) -> Action
        requires { ObjectsInside (sizes_in (lay_of self.now.lay)) code.now }
        ensures value { result ≡ next_action code.now (setting_of (who self.now)) self.now.reader }
        ensures place { GoesOn result → self.now.reader.place + 1 < 2 ^ 32 }
        ensures done { GoesOn result → self.now.reader.done + 1 < 2 ^ 64 }
        ensures within { IsWithinLay (lay_of self.now.lay) result }
    {
        self.reader.next(code, self.setting())
    }

    /// The first operation of an action.
    fn op_of_action(&self, action: Action) -> Op
        requires { IsWithinLay (lay_of self.now.lay) action }
        ensures op { result ≡ op_of (lay_of self.now.lay) (first_act (action_job (who self.now) (own_of self.now) action)) }
        ensures within { place_of result < total (lay_of self.now.lay) }
    {
        match action {
            Action::LoadWord { d: _, w } => self.op_of_load(w),
            Action::StoreWord { w, v } => self.op_of_store(w, v),
            Action::TakeLock { l } => self.op_of_try(LockTry::new(self.lay, l)),
            Action::GiveLock { l: _, k: _ } => self.op_of_release(),
            Action::Meet { b: _ } => self.op_of_release(),
            Action::RaiseFlag { f: _ } => self.op_of_release(),
            Action::WaitFlag { f, need } => self.op_of_look(Counter::Flag { f }, need),
            Action::Trap { kind: _ } => self.stop_all(),
            Action::Spend => self.stop_all(),
            Action::Arrive => self.op_of_release(),
            _ => self.look_at_stop(),
        }
    }

    /// The first operation of a release, which draws a time.
    fn op_of_release(&self) -> Op
        ensures op { result ≡ op_of (lay_of self.now.lay) (Add (Clock (node_of (who self.now))) 1) }
        ensures within { place_of result < total (lay_of self.now.lay) }
    {
        Draw::new(self.lay, self.node()).next()
    }

    /// The first operation of a load.
    fn op_of_load(&self, w: u32) -> Op
        requires { w < self.now.lay.pages * self.now.lay.words }
        ensures op { (access : Job) → first_act access ≡ Get (address_item (who self.now) w) → result ≡ op_of (lay_of self.now.lay) (first_act (access_job (who self.now) (own_of self.now) false w access)) }
        ensures within { place_of result < total (lay_of self.now.lay) }
    {
        let m = self.maps[self.page(w) as usize];
        if m == 1 || m == 2 {
            return Op::Load { at: self.word(w) };
        }
        self.op_of_fault(w)
    }

    /// The first operation of a store of `v`.
    fn op_of_store(&self, w: u32, v: u64) -> Op
        requires { w < self.now.lay.pages * self.now.lay.words }
        ensures op { (access : Job) → first_act access ≡ Put (address_item (who self.now) w) v → result ≡ op_of (lay_of self.now.lay) (first_act (access_job (who self.now) (own_of self.now) true w access)) }
        ensures within { place_of result < total (lay_of self.now.lay) }
    {
        if self.maps[self.page(w) as usize] == 2 {
            return Op::Store {
                at: self.word(w),
                v,
            };
        }
        self.op_of_fault(w)
    }

    /// The first operation of a fault, which takes the turn of its page.
    fn op_of_fault(&self, w: u32) -> Op
        requires { w < self.now.lay.pages * self.now.lay.words }
        ensures op { result ≡ op_of (lay_of self.now.lay) (Change (Turn (node_of (who self.now)) (page_of (who self.now) w)) 0 (self.now.p + 1)) }
        ensures within { place_of result < total (lay_of self.now.lay) }
    {
        TakeTurn::page(self.lay, self.node(), self.page(w), self.p).next()
    }

    /// The operation before which it stands.
    #[tactic(auto, using(crate::proofs::Settled::first_phase))]
    pub(super) fn op_begun(&self) -> Op
        requires begun { has_begun self.now.point ≡ true }
        requires runs { ending (seen self.now) ≡ None }
        ensures op { result ≡ op_of (lay_of self.now.lay) (first_act (seen self.now).todo) }
        ensures within { place_of result < total (lay_of self.now.lay) }
    {
        match self.point {
            Point::Accessing { access } => self.op_of_access(access),
            Point::Working { next: _ } => self.phase.next(),
            Point::Stopping { end: _ } => self.stop_all(),
            Point::At { head: _ } => unreachable!(),
            Point::Over { end: _ } => unreachable!(),
            _ => self.look_at_stop(),
        }
    }

    /// The load or store itself.
    fn op_of_access(&self, access: Access) -> Op
        requires { address_of access < self.now.lay.pages * self.now.lay.words }
        ensures op { result ≡ op_of (lay_of self.now.lay) (first_act (made_job (who self.now) access)) }
        ensures within { place_of result < total (lay_of self.now.lay) }
    {
        match access {
            Access::Load { d: _, w } => Op::Load { at: self.word(w) },
            Access::Store { w, v } => Op::Store {
                at: self.word(w),
                v,
            },
        }
    }

    /// The place of the word of address `w` in the frames of its node: those stand node behind node, behind the stop word.
    #[tactic(auto, using(crate::proofs::Framing::frame_at))]
    fn word(&self, w: u32) -> u64
        requires { w < self.now.lay.pages * self.now.lay.words }
        ensures place { result ≡ place (lay_of self.now.lay) (address_item (who self.now) w) }
        ensures within { result < total (lay_of self.now.lay) }
    {
        1 + u64::from(self.node() * (self.lay.pages * self.lay.words) + w)
    }
}
