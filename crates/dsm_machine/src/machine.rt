ghost use Rattle.std.specs.Prelude.{◌≡◌, ◌+◌, ◌*◌, ◌^◌, ◌<◌, ◌≤◌, true, None};
ghost use Rattle.dsm_protocol.specs.Jobs.{held_turn};
ghost use Rattle.dsm_words.specs.Place.{lay_of};
ghost use Rattle.dsm_machine.specs.Phases.{phase_lay};
ghost use Rattle.dsm_machine.specs.Points.{job_at, point_open, point_register, point_address, point_page, point_home, point_node, point_number, points_of, slack, place_slack};

mod beginning;
mod dirty;
mod ending;
mod ops;
mod working;

use crate::any_phase::AnyPhase;
use crate::point::{Next, Point};
use dsm_clock::draw::Draw;
use dsm_entry::entry::NoMemory;
use dsm_entry::trace::Trace;
use dsm_isa::code::Code;
use dsm_local::end::End;
use dsm_local::reader::Reader;
use dsm_protocol::counts::Counts;
use dsm_protocol::head::Head;
use dsm_protocol::limits::Limits;
use dsm_words::layout::Layout;
use dsm_words::op::Op;
use dsm_words::turn::Turn;
use std::alloc::Global;

/// One processor. It makes no operation itself: `next` names its next one, and `after` takes the answer.
#[derive(Drop)]
pub struct Machine {
    lay: Layout,
    p: u32,
    limits: Limits,
    reader: Reader,
    trace: Trace,
    counts: Counts,
    /// Its mapping of each page: 0 none, 1 read, 2 write, 3 wanted.
    maps: [u8; 256],
    /// Its dirty pages, 64 a word.
    dirty: [u64; 4],
    /// The phase under way, where its point is within one.
    phase: AnyPhase,
    point: Point,
    ghost p_in: { p < lay.t.nodes * lay.t.procs },
    ghost is_open: { point_open phase point ≡ true },
    ghost lay_is: { phase_lay phase ≡ lay_of lay },
    ghost register_in: { point_register point < 16 },
    ghost address_in: { point_address point < lay.pages * lay.words },
    ghost page_in: { point_page point < lay.pages },
    ghost home_in: { point_home point < lay.t.nodes },
    ghost node_in: { point_node point < lay.t.nodes },
    ghost object_in: { point_number point < points_of (lay_of lay) point },
    ghost place_in: { reader.place + 1 < 2 ^ 32 + place_slack point },
    ghost done_in: { reader.done + 1 < 2 ^ 64 + slack point },
    // Where it holds a turn there is room for an entry, so that it can't then want memory.
    ghost room: { trace.spare ≡ 0 → held_turn (job_at (record { lay = lay_of lay; p = p; limits = limits }) phase point) ≡ None },
}

const _: () = prove!(size_of::<Machine>() <= 2048);

impl Machine {
    ghost use Rattle.std.specs.Prelude.{ℕ, List, OnOk, OnErr, IsOk, IfSome};
    ghost use Rattle.dsm_isa.specs.declared.instr.Instr.{Instr as instruction};
    ghost use Rattle.dsm_isa.specs.Rules.{ObjectsInside};
    ghost use Rattle.dsm_words.specs.Op.{place_of};
    ghost use Rattle.dsm_words.specs.Place.{processors, total};
    ghost use Rattle.dsm_protocol.specs.Own.{new_own, sizes_in, node_of};
    ghost use Rattle.dsm_protocol.specs.Jobs.{Begin, job_after};
    ghost use Rattle.dsm_protocol.specs.Laws.{IsLocal};
    ghost use Rattle.dsm_protocol.specs.Processors.{settled, new_processor, ending, next_op, after_answer, wanting, IsMade};
    ghost use Rattle.dsm_machine.specs.Machines.{who, own_of, seen, processor_in, told_of, spare_of, HasRoom, Spends};
    ghost use Rattle.dsm_machine.specs.Phases.{phase_job, phase_open, noted};
    ghost use Rattle.dsm_machine.specs.Points.{next_job, next_register, next_address, next_page, next_home, next_node, next_number, nexts_of, next_slack, has_begun};

    /// Processor `p`, which has done nothing. It takes no memory.
    pub fn new(alloc: Global, lay: Layout, p: u32, limits: Limits) -> Machine
        requires { p < processors (lay_of lay) }
        ensures who { who result ≡ record { lay = lay_of lay; p = p; limits = limits } }
        ensures new { (code : List instruction) → processor_in result code ≡ new_processor (who result) code }
        ensures made { (code : List instruction) → IsMade (who result) code (processor_in result code) }
        ensures runs { ending (seen result) ≡ None }
        ensures spare { spare_of result ≡ 0 }
    {
        Machine::before_all(alloc, lay, p, limits)
    }

    /// Processor `p` before its first instruction.
    #[tactic(auto, using(crate::proofs::Flags::no_flags))]
    fn before_all(alloc: Global, lay: Layout, p: u32, limits: Limits) -> Machine
        requires { p < processors (lay_of lay) }
        ensures who { who result ≡ record { lay = lay_of lay; p = p; limits = limits } }
        ensures seen { seen result ≡ settled new_own (Begin Head.Instruction) }
        ensures spare { spare_of result ≡ 0 }
    {
        Machine {
            lay,
            p,
            limits,
            reader: Reader::new(),
            trace: Trace::new(alloc),
            counts: Counts::none(),
            maps: [0; 256],
            dirty: [0; 4],
            phase: AnyPhase::Draw(Draw::new(lay, 0)),
            point: Point::At {
                head: Head::Instruction,
            },
        }
    }

    /// Makes room for one entry. Where there is room already, it takes no memory; where a turn is held there is.
    pub fn ready(&mut self) -> Result<(), NoMemory>
        ensures who { who self.new ≡ who self.old }
        ensures same { seen self.new ≡ seen self.old }
        ensures ok { OnOk result (0 < spare_of self.new) }
        ensures err { OnErr result (spare_of self.new ≡ spare_of self.old) }
        ensures full { OnErr result (spare_of self.old ≡ 0) }
        ensures turn { OnErr result (held_turn (seen self.old).todo ≡ None) }
        ensures room { 0 < spare_of self.old → IsOk result }
        ensures spare { 0 < spare_of self.old → spare_of self.new ≡ spare_of self.old }
    {
        self.trace.reserve_one()
    }

    /// Makes room for `count` entries. Where there is room for so many already, it takes no memory; where memory is not
    /// got, the machine stays as it was, and had less room.
    pub fn ready_for(&mut self, count: u64) -> Result<(), NoMemory>
        ensures who { who self.new ≡ who self.old }
        ensures same { seen self.new ≡ seen self.old }
        ensures ok { OnOk result (count ≤ spare_of self.new) }
        ensures err { OnErr result (spare_of self.new ≡ spare_of self.old) }
        ensures full { OnErr result (spare_of self.old < count) }
        ensures room { count ≤ spare_of self.old → IsOk result }
        ensures spare { count ≤ spare_of self.old → spare_of self.new ≡ spare_of self.old }
    {
        self.trace.reserve(count)
    }

    /// For the case that `ready` was refused: in place of its next operation it tells all others to stop. It takes no
    /// memory.
    pub fn starve(&mut self)
        requires runs { ending (seen self.old) ≡ None }
        requires turn { held_turn (seen self.old).todo ≡ None }
        ensures who { who self.new ≡ who self.old }
        ensures starved { (code : List instruction) → processor_in self.new code ≡ wanting (who self.old) true (processor_in self.old code) }
        ensures made { (code : List instruction) → IsMade (who self.old) code (processor_in self.old code) → IsMade (who self.new) code (processor_in self.new code) }
        ensures room { HasRoom self.new }
        ensures trace { told_of self.new ≡ told_of self.old }
    {
        self.point = Point::Stopping { end: End::NoMemory };
    }

    /// Where an instruction or a further look is to begin, its action is found, and kept until its first answer. `next` and
    /// `after` find it themselves where it was not found before. It takes no memory.
    #[inline(always)]
    #[tactic(auto, using(crate::proofs::Holding::room_kept))]
    pub fn begin(&mut self, code: &Code)
        requires { ObjectsInside (sizes_in (who self.old).lay) code.now }
        ensures who { who self.new ≡ who self.old }
        ensures same { processor_in self.new code.now ≡ processor_in self.old code.now }
        ensures begun { seen self.new ≡ processor_in self.old code.now }
        ensures point { has_begun self.new.point ≡ true }
        ensures room { HasRoom self.old → HasRoom self.new }
        ensures trace { told_of self.new ≡ told_of self.old }
    {
        if let Point::At { head } = self.point {
            self.begin_at(code, head);
        }
    }

    /// The next operation, and None exactly where the machine has ended. It takes no memory.
    pub fn next(&self, code: &Code) -> Option<Op>
        requires { ObjectsInside (sizes_in (who self.now).lay) code.now }
        ensures op { result ≡ next_op (who self.now) (processor_in self.now code.now) }
        ensures within { IfSome result (λ op. place_of op < total (who self.now).lay) }
    {
        match self.point {
            Point::At { head } => Some(self.op_at(code, head)),
            Point::Over { end: _ } => None,
            _ => Some(self.op_begun()),
        }
    }

    /// Takes the answer of the next operation. It takes no memory.
    pub fn after(&mut self, code: &Code, got: u64)
        requires objects { ObjectsInside (sizes_in (who self.old).lay) code.now }
        requires runs { ending (seen self.old) ≡ None }
        requires room { HasRoom self.old }
        ensures who { who self.new ≡ who self.old }
        ensures event { processor_in self.new code.now ≡ after_answer (who self.old) code.now (processor_in self.old code.now) got }
        ensures spends { Spends (told_of self.old) (told_of self.new) }
        // Where all earlier calls had this code, its trace and end are those of a plain reader.
        ensures made { IsMade (who self.old) code.now (processor_in self.old code.now) → IsMade (who self.new) code.now (processor_in self.new code.now) }
        ensures local { IsMade (who self.old) code.now (processor_in self.old code.now) → IsLocal (who self.new) code.now (processor_in self.new code.now) }
    {
        self.take_answer(code, got);
    }

    /// Takes the answer of the next operation.
    #[tactic(auto, using(crate::proofs::Spending::spends_behind_none))]
    fn take_answer(&mut self, code: &Code, got: u64)
        requires objects { ObjectsInside (sizes_in (who self.old).lay) code.now }
        requires runs { ending (seen self.old) ≡ None }
        requires room { HasRoom self.old }
        ensures who { who self.new ≡ who self.old }
        ensures event { processor_in self.new code.now ≡ after_answer (who self.old) code.now (processor_in self.old code.now) got }
        ensures spends { Spends self.old.trace self.new.trace }
    {
        self.begin(code);
        self.answer(got);
    }

    /// Takes the answer of the operation before which it stands.
    #[tactic(auto, using(crate::proofs::Spending::spends_none))]
    fn answer(&mut self, got: u64)
        requires begun { has_begun self.old.point ≡ true }
        requires runs { ending (seen self.old) ≡ None }
        requires room { HasRoom self.old }
        ensures who { who self.new ≡ who self.old }
        ensures seen { seen self.new ≡ settled (own_of self.old) (job_after (seen self.old).todo got) }
        ensures spends { Spends self.old.trace self.new.trace }
    {
        match self.point {
            Point::Accessing { access } => self.accessed(access, got),
            Point::Setting { d, v } => self.give(d, v),
            Point::Jumping { to } => self.jump(to),
            Point::Printing { v } => self.print(v),
            Point::Working { next } => self.work(next, got),
            Point::Heeding { again } => self.heed(again, got),
            Point::Stopping { end } => self.point = Point::Over { end },
            Point::At { head: _ } => unreachable!(),
            Point::Over { end: _ } => unreachable!(),
        }
    }

    /// Its node.
    pub(crate) fn node(&self) -> u32
        ensures value { result ≡ node_of (who self.now) }
        ensures within { result < self.now.lay.t.nodes }
    {
        self.lay.t.node_of(self.p)
    }

    /// A phase begins, while there is room for an entry.
    #[tactic(auto, using(crate::proofs::Calling::settled_phase, crate::proofs::Holding::with_room))]
    pub(crate) fn start(&mut self, phase: AnyPhase, next: Next)
        requires is_open { phase_open phase ≡ true }
        requires layout { phase_lay phase ≡ lay_of self.old.lay }
        requires register { next_register next < 16 }
        requires address { next_address next < self.old.lay.pages * self.old.lay.words }
        requires page { next_page next < self.old.lay.pages }
        requires home { next_home next < self.old.lay.t.nodes }
        requires node { next_node next < self.old.lay.t.nodes }
        requires object { next_number next < nexts_of (lay_of self.old.lay) next }
        requires place { self.old.reader.place + 1 < 2 ^ 32 + next_slack next }
        requires done { self.old.reader.done + 1 < 2 ^ 64 + next_slack next }
        requires room { 0 < spare_of self.old }
        ensures who { who self.new ≡ who self.old }
        ensures seen { seen self.new ≡ settled (own_of self.old) (phase_job phase (next_job (who self.old) next)) }
        ensures trace { self.new.trace ≡ self.old.trace }
    {
        self.phase = phase;
        self.point = Point::Working { next };
    }

    /// A phase begins while no turn is held: there may be no room for an entry.
    #[tactic(auto, using(crate::proofs::Calling::settled_phase))]
    pub(crate) fn start_free(&mut self, phase: AnyPhase, next: Next)
        requires is_open { phase_open phase ≡ true }
        requires layout { phase_lay phase ≡ lay_of self.old.lay }
        requires register { next_register next < 16 }
        requires address { next_address next < self.old.lay.pages * self.old.lay.words }
        requires page { next_page next < self.old.lay.pages }
        requires home { next_home next < self.old.lay.t.nodes }
        requires node { next_node next < self.old.lay.t.nodes }
        requires object { next_number next < nexts_of (lay_of self.old.lay) next }
        requires place { self.old.reader.place + 1 < 2 ^ 32 + next_slack next }
        requires done { self.old.reader.done + 1 < 2 ^ 64 + next_slack next }
        requires free { held_turn (phase_job phase (next_job (who self.old) next)) ≡ None }
        ensures who { who self.new ≡ who self.old }
        ensures seen { seen self.new ≡ settled (own_of self.old) (phase_job phase (next_job (who self.old) next)) }
        ensures begun { has_begun self.new.point ≡ true }
        ensures trace { self.new.trace ≡ self.old.trace }
    {
        self.phase = phase;
        self.point = Point::Working { next };
    }

    /// Takes an answer within a phase.
    #[tactic(auto, using(crate::proofs::Spending::spends_none, crate::proofs::Spending::spends_behind_none))]
    fn work(&mut self, next: Next, got: u64)
        requires at { self.old.point ≡ Point.Working next }
        requires room { 0 < spare_of self.old }
        ensures who { who self.new ≡ who self.old }
        ensures seen { seen self.new ≡ settled (own_of self.old) (job_after (seen self.old).todo got) }
        ensures spends { Spends self.old.trace self.new.trace }
    {
        self.count_notice();
        if let Turn::Done(out) = self.phase.after(got) {
            self.point = Point::At {
                head: Head::Instruction,
            };
            self.go_on(next, out);
        }
    }

    /// Where its next operation posts a notice, that is counted.
    fn count_notice(&mut self)
        ensures who { who self.new ≡ who self.old }
        ensures own { own_of self.new ≡ noted self.old.phase (own_of self.old) }
        ensures phase { self.new.phase ≡ self.old.phase }
        ensures point { self.new.point ≡ self.old.point }
        ensures reader { self.new.reader ≡ self.old.reader }
        ensures trace { self.new.trace ≡ self.old.trace }
    {
        if self.phase.is_posting() {
            self.counts.notices = self.counts.notices.wrapping_add(1);
        }
    }

    /// How the machine ended, and None exactly where it has not. It takes no memory.
    pub fn end(&self) -> Option<End>
        ensures end { result ≡ ending (seen self.now) }
        ensures begun { (code : List instruction) → result ≡ ending (processor_in self.now code) }
    {
        match self.point {
            Point::Over { end } => Some(end),
            _ => None,
        }
    }

    /// How often each thing happened. It takes no memory.
    pub fn counts(&self) -> Counts
        ensures counts { result ≡ (seen self.now).own.counts }
        ensures begun { (code : List instruction) → result ≡ (processor_in self.now code).own.counts }
    {
        self.counts
    }

    /// How many instructions are done. It takes no memory.
    pub fn done(&self) -> u64
        ensures { result ≡ (seen self.now).own.reader.done }
    {
        self.reader.done
    }

    /// The trace of a machine that is no longer wanted. It takes no memory.
    pub fn into_trace(self) -> Trace
        ensures trace { result.list ≡ (seen self).own.trace }
        ensures begun { (code : List instruction) → result.list ≡ (processor_in self code).own.trace }
    {
        self.trace
    }
}
