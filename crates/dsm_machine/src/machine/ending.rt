// How an instruction, a try or a look ends.
ghost use Rattle.std.specs.Prelude.{◌≡◌, ◌+◌, ◌*◌, ◌^◌, ◌<◌, ◌≤◌, ◌++◌, ◌∷◌, []};
ghost use Rattle.dsm_words.specs.Place.{lay_of};
ghost use Rattle.dsm_protocol.specs.Steps.{object_of};

use super::Machine;
use crate::acquire::AcquireAt;
use crate::any_phase::AnyPhase;
use crate::outcome::Outcome;
use crate::point::{Access, Next, Point, Signal};
use dsm_clock::take::TakeTurn;
use dsm_entry::entry::{Entry, Obj};
use dsm_isa::reg::Reg;
use dsm_local::end::End;
use dsm_protocol::head::Head;
use dsm_sync::counter::Counter;
use dsm_sync::got::Got;

impl Machine {
    ghost use Rattle.dsm_sync.specs.Counters.{counter_number, counters_of};
    ghost use Rattle.dsm_protocol.specs.Jobs.{Begin, Ended, Mark, Append, Give, Go, job_after};
    ghost use Rattle.dsm_protocol.specs.Steps.{next_instruction, heed_job, unready_job, tried_job, looked_job, need_of, acquire_job, closing_job};
    ghost use Rattle.dsm_protocol.specs.Processors.{settled};
    ghost use Rattle.dsm_machine.specs.Faults.{made_job, register_of};
    ghost use Rattle.dsm_machine.specs.Machines.{who, own_of, seen, spare_of, Spends};
    ghost use Rattle.dsm_machine.specs.Points.{head_number, heads_of, head_slack, has_begun};
    ghost use Rattle.dsm_machine.specs.Releases.{counter_slack, signalled, signal_number, signals_of, signal_slack};

    /// Appends an entry to the trace.
    #[tactic(auto, using(crate::proofs::Spending::spends_one))]
    fn note(&mut self, e: Entry)
        requires { 0 < spare_of self.old }
        ensures who { who self.new ≡ who self.old }
        ensures own { own_of self.new ≡ record (own_of self.old) { trace = (own_of self.old).trace ++ e ∷ [] } }
        ensures layout { self.new.lay ≡ self.old.lay }
        ensures reader { self.new.reader ≡ self.old.reader }
        ensures spends { Spends self.old.trace self.new.trace }
    {
        self.point = Point::At {
            head: Head::Instruction,
        };
        self.trace.push(e);
    }

    /// The instruction is done.
    pub(super) fn moved(&mut self)
        requires place { self.old.reader.place + 1 < 2 ^ 32 }
        requires done { self.old.reader.done + 1 < 2 ^ 64 }
        ensures who { who self.new ≡ who self.old }
        ensures seen { seen self.new ≡ settled (own_of self.old) next_instruction }
        ensures trace { self.new.trace ≡ self.old.trace }
    {
        self.point = Point::At {
            head: Head::Instruction,
        };
        self.reader.move_on();
    }

    /// The instruction is done, and gives register `d` the value `v`.
    pub(super) fn give(&mut self, d: u32, v: u64)
        requires register { d < 16 }
        requires place { self.old.reader.place + 1 < 2 ^ 32 }
        requires done { self.old.reader.done + 1 < 2 ^ 64 }
        ensures who { who self.new ≡ who self.old }
        ensures seen { seen self.new ≡ settled (own_of self.old) (Mark (Give d v) (Begin Head.Instruction)) }
        ensures trace { self.new.trace ≡ self.old.trace }
    {
        self.point = Point::At {
            head: Head::Instruction,
        };
        match Reg::new(d) {
            Some(d) => self.reader.give(d, v),
            None => unreachable!(),
        }
    }

    /// The instruction is done, and the one at place `to` comes next.
    pub(super) fn jump(&mut self, to: u32)
        requires { self.old.reader.done + 1 < 2 ^ 64 }
        ensures who { who self.new ≡ who self.old }
        ensures seen { seen self.new ≡ settled (own_of self.old) (Mark (Go to) (Begin Head.Instruction)) }
        ensures trace { self.new.trace ≡ self.old.trace }
    {
        self.point = Point::At {
            head: Head::Instruction,
        };
        self.reader.jump(to);
    }

    /// The number is printed.
    #[tactic(auto, using(crate::proofs::Spending::spends_then_none))]
    pub(super) fn print(&mut self, v: u64)
        requires room { 0 < spare_of self.old }
        requires place { self.old.reader.place + 1 < 2 ^ 32 }
        requires done { self.old.reader.done + 1 < 2 ^ 64 }
        ensures who { who self.new ≡ who self.old }
        ensures seen { seen self.new ≡ settled (own_of self.old) (Mark (Append (Entry.Out v)) next_instruction) }
        ensures spends { Spends self.old.trace self.new.trace }
    {
        self.note(Entry::Out { v });
        self.moved();
    }

    /// The load or store is made.
    #[tactic(auto, using(crate::proofs::Spending::spends_one))]
    pub(super) fn accessed(&mut self, access: Access, got: u64)
        requires register { register_of access < 16 }
        requires room { 0 < spare_of self.old }
        requires place { self.old.reader.place + 1 < 2 ^ 32 }
        requires done { self.old.reader.done + 1 < 2 ^ 64 }
        ensures who { who self.new ≡ who self.old }
        ensures seen { seen self.new ≡ settled (own_of self.old) (job_after (made_job (who self.old) access) got) }
        ensures spends { Spends self.old.trace self.new.trace }
    {
        self.point = Point::At {
            head: Head::Instruction,
        };
        match access {
            Access::Load { d, w } => {
                self.trace.push(Entry::Load { w, v: got });
                match Reg::new(d) {
                    Some(d) => self.reader.give(d, got),
                    None => unreachable!(),
                }
            }
            Access::Store { w, v } => {
                self.trace.push(Entry::Store { w, v });
                self.reader.move_on();
            }
        }
    }

    /// Takes the answer of the load of the stop word.
    pub(super) fn heed(&mut self, again: Head, got: u64)
        requires head { head_number again < heads_of (lay_of self.old.lay) again }
        requires place { self.old.reader.place + 1 < 2 ^ 32 + head_slack again }
        requires done { self.old.reader.done + 1 < 2 ^ 64 + head_slack again }
        ensures who { who self.new ≡ who self.old }
        ensures seen { seen self.new ≡ settled (own_of self.old) (heed_job again got) }
        ensures trace { self.new.trace ≡ self.old.trace }
    {
        if got == 0 {
            self.point = Point::At { head: again };
            return;
        }
        self.point = Point::Over {
            end: End::Stopped {
                by: ((got - 1) % (1 << 32)) as u32,
            },
        };
    }

    /// The object was not ready.
    fn unready(&mut self, again: Head)
        requires head { head_number again < heads_of (lay_of self.old.lay) again }
        requires place { self.old.reader.place + 1 < 2 ^ 32 + head_slack again }
        requires done { self.old.reader.done + 1 < 2 ^ 64 + head_slack again }
        ensures who { who self.new ≡ who self.old }
        ensures seen { seen self.new ≡ settled (own_of self.old) (unready_job (who self.old) again) }
        ensures trace { self.new.trace ≡ self.old.trace }
    {
        let unready = self.counts.unready.wrapping_add(1);
        self.counts.unready = unready;
        self.point = match self.limits.looks {
            Some(last) if unready == last => Point::Stopping { end: End::Looked },
            _ => Point::Heeding { again },
        };
    }

    /// A try of lock `l` has found this.
    #[tactic(auto, using(crate::proofs::Spending::spends_none))]
    pub(super) fn tried(&mut self, l: u32, got: Got)
        requires room { 0 < spare_of self.old }
        requires lock { l < self.old.lay.locks }
        requires place { self.old.reader.place + 1 < 2 ^ 32 }
        requires done { self.old.reader.done + 1 < 2 ^ 64 }
        ensures who { who self.new ≡ who self.old }
        ensures seen { seen self.new ≡ settled (own_of self.old) (tried_job (who self.old) l got) }
        ensures spends { Spends self.old.trace self.new.trace }
    {
        match got {
            Got::Ready { c } => self.pass_lock(l, c),
            Got::Unready => self.unready(Head::Locking { l }),
        }
    }

    /// Passes a lock.
    #[tactic(auto, using(crate::proofs::Spending::spends_then_none))]
    fn pass_lock(&mut self, l: u32, c: u64)
        requires room { 0 < spare_of self.old }
        requires lock { l < self.old.lay.locks }
        requires place { self.old.reader.place + 1 < 2 ^ 32 }
        requires done { self.old.reader.done + 1 < 2 ^ 64 }
        ensures who { who self.new ≡ who self.old }
        ensures seen { seen self.new ≡ settled (own_of self.old) (tried_job (who self.old) l (Got.Ready c)) }
        ensures spends { Spends self.old.trace self.new.trace }
    {
        self.note(Entry::Pass { o: Obj::Lock(l), c });
        self.reader.open(l, c);
        self.acquire();
    }

    /// A look at an object has found this.
    #[tactic(auto, using(crate::proofs::Spending::spends_none))]
    pub(super) fn looked(&mut self, of: Counter, need: u64, got: Got)
        requires room { 0 < spare_of self.old }
        requires object { counter_number of < counters_of (lay_of self.old.lay) of }
        requires place { self.old.reader.place + 1 < 2 ^ 32 + counter_slack of }
        requires done { self.old.reader.done + 1 < 2 ^ 64 + counter_slack of }
        ensures who { who self.new ≡ who self.old }
        ensures seen { seen self.new ≡ settled (own_of self.old) (looked_job (who self.old) of need got) }
        ensures spends { Spends self.old.trace self.new.trace }
    {
        match got {
            Got::Ready { c } => self.pass(of, need, c),
            Got::Unready => self.unready(Head::Looking { of, need }),
        }
    }

    /// Passes a barrier or a flag.
    #[tactic(auto, using(crate::proofs::Spending::spends_then_none))]
    fn pass(&mut self, of: Counter, need: u64, c: u64)
        requires room { 0 < spare_of self.old }
        requires place { self.old.reader.place + 1 < 2 ^ 32 + counter_slack of }
        requires done { self.old.reader.done + 1 < 2 ^ 64 + counter_slack of }
        ensures who { who self.new ≡ who self.old }
        ensures seen { seen self.new ≡ settled (own_of self.old) (looked_job (who self.old) of need (Got.Ready c)) }
        ensures spends { Spends self.old.trace self.new.trace }
    {
        let _asked = need;
        self.note(Entry::Pass {
            o: object_of(of),
            c,
        });
        match of {
            Counter::Barrier { b: _ } => self.acquire(),
            Counter::Flag { f: _ } => self.acquire(),
            Counter::Close => self.close(),
        }
    }

    /// An acquire begins.
    #[tactic(auto, using(crate::proofs::Holding::held_acquire))]
    fn acquire(&mut self)
        requires place { self.old.reader.place + 1 < 2 ^ 32 }
        requires done { self.old.reader.done + 1 < 2 ^ 64 }
        ensures who { who self.new ≡ who self.old }
        ensures seen { seen self.new ≡ settled (own_of self.old) (acquire_job (who self.old) next_instruction) }
        ensures trace { self.new.trace ≡ self.old.trace }
    {
        let take = TakeTurn::notices(self.lay, self.node(), self.p);
        self.start_free(
            AnyPhase::Take(take),
            Next::Acquire {
                set: [0; 4],
                g: 0,
                at: AcquireAt::NoticesTaken,
            },
        );
    }

    /// The signal of a release is made.
    pub(super) fn signalled(&mut self, signal: Signal, out: Outcome)
        requires room { 0 < spare_of self.old }
        requires object { signal_number signal < signals_of (lay_of self.old.lay) signal }
        requires place { self.old.reader.place + 1 < 2 ^ 32 + signal_slack signal }
        requires done { self.old.reader.done + 1 < 2 ^ 64 + signal_slack signal }
        ensures who { who self.new ≡ who self.old }
        ensures seen { seen self.new ≡ settled (own_of self.old) (signalled (who self.old) signal out) }
        ensures spends { Spends self.old.trace self.new.trace }
    {
        match signal {
            Signal::Free { l, k } => self.free(l, k),
            Signal::Meet { of } => self.arrived(of, out.number()),
            Signal::Raise { f } => self.raised(f, out.number()),
        }
    }

    /// A flag was set, as set number `j`.
    #[tactic(auto, using(crate::proofs::Spending::spends_then_none))]
    fn raised(&mut self, f: u32, j: u64)
        requires room { 0 < spare_of self.old }
        requires place { self.old.reader.place + 1 < 2 ^ 32 }
        requires done { self.old.reader.done + 1 < 2 ^ 64 }
        ensures who { who self.new ≡ who self.old }
        ensures seen { seen self.new ≡ settled (own_of self.old) (signalled (who self.old) (Signal.Raise f) (Outcome.Number j)) }
        ensures spends { Spends self.old.trace self.new.trace }
    {
        self.note(Entry::Signal { o: Obj::Flag(f), j });
        self.moved();
    }

    /// The lock is given back.
    #[tactic(auto, using(crate::proofs::Spending::spends_then_none))]
    fn free(&mut self, l: u32, k: u64)
        requires room { 0 < spare_of self.old }
        requires place { self.old.reader.place + 1 < 2 ^ 32 }
        requires done { self.old.reader.done + 1 < 2 ^ 64 }
        ensures who { who self.new ≡ who self.old }
        ensures seen { seen self.new ≡ settled (own_of self.old) (signalled (who self.old) (Signal.Free l k) Outcome.Nothing) }
        ensures spends { Spends self.old.trace self.new.trace }
    {
        self.note(Entry::Signal {
            o: Obj::Lock(l),
            j: k,
        });
        self.reader.close(l);
        self.moved();
    }

    /// It has arrived, as arrival number `a`.
    fn arrived(&mut self, of: Counter, a: u64)
        requires room { 0 < spare_of self.old }
        requires object { counter_number of < counters_of (lay_of self.old.lay) of }
        requires place { self.old.reader.place + 1 < 2 ^ 32 + counter_slack of }
        requires done { self.old.reader.done + 1 < 2 ^ 64 + counter_slack of }
        ensures who { who self.new ≡ who self.old }
        ensures seen { seen self.new ≡ settled (own_of self.old) (signalled (who self.old) (Signal.Meet of) (Outcome.Number a)) }
        ensures spends { Spends self.old.trace self.new.trace }
    {
        self.note(Entry::Signal {
            o: object_of(of),
            j: a,
        });
        self.point = Point::At {
            head: Head::Looking {
                of,
                need: self.need(a),
            },
        };
    }

    /// The arrivals that the round of arrival number `a` needs.
    fn need(&self, a: u64) -> u64
        ensures { result ≡ need_of (who self.now) a }
    {
        let all = u64::from(self.lay.t.all());
        (a / all).wrapping_add(1).wrapping_mul(all)
    }

    /// The closing barrier is passed: processor 0 has the closing work.
    fn close(&mut self)
        ensures who { who self.new ≡ who self.old }
        ensures seen { seen self.new ≡ settled (own_of self.old) (closing_job (who self.old) (Ended End.Halted)) }
        ensures trace { self.new.trace ≡ self.old.trace }
    {
        if self.p == 0 {
            self.hold(0);
            return;
        }
        self.point = Point::Over { end: End::Halted };
    }
}

/// The object of an entry.
fn object_of(of: Counter) -> Obj
    ensures { result ≡ object_of of }
{
    match of {
        Counter::Barrier { b } => Obj::Barrier(b),
        Counter::Flag { f } => Obj::Flag(f),
        Counter::Close => Obj::Close,
    }
}
