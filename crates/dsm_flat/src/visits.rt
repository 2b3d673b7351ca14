// The entries of all traces, each visited behind what is before it.
ghost use Rattle.std.specs.Prelude.{◌≡◌, ◌≢◌, ℕ, ◌+◌, ◌<◌, ◌^◌, List, Some, None, length, slice_get, IsTrue, IfOk, OnOk, MatchBool, MatchOption};
ghost use Rattle.dsm_entry.specs.declared.entry.Place.{Place};
ghost use Rattle.dsm_entry.specs.Told.{lists_of};
ghost use Rattle.dsm_flat.specs.Order.{Traces, Holds};
ghost use Rattle.dsm_flat.specs.Clocks.{IsLeft, IsBlocked};
ghost use Rattle.dsm_flat.specs.Racing.{IsVisit, CountsNone};
ghost use Rattle.dsm_flat.specs.Visits.{JoinsSignals};
ghost use Rattle.dsm_flat.specs.Gates.{IsIndexed, AreGates};
ghost use Rattle.dsm_flat.specs.Following.{AreShort, AllVisited, IsFree, IsHeld, CanVisit, AllBlocked, AreVisits, IsNextVisit};

use crate::clock::{Clock, zeros};
use crate::gates::Gates;
use dsm_entry::entry::{Entry, NoMemory, Place};
use dsm_entry::trace::Trace;
use std::alloc::Global;

/// How far each trace is visited, with the clock of each processor's last visited entry.
#[derive(Drop)]
pub struct Visits {
    pub done: Clock,
    pub clocks: Vec<Clock>,
    pub gates: Gates,
    // The processor that was visited last.
    pub last: usize,
}

/// An entry that is visited.
#[derive(Clone, Copy, Debug, PartialEq, Eq)]
pub struct Visit {
    pub place: Place,
    pub entry: Entry,
}

impl Visits {
    /// No entry is visited.
    pub fn new(alloc: Global, traces: &[Trace]) -> Result<Visits, NoMemory>
        requires { length traces.now < 2 ^ 32 }
        ensures visits { IfOk result (AreVisits (lists_of traces.now)) }
        ensures none { IfOk result (λ visits. CountsNone visits.done) }
    {
        let gates = Gates::of(alloc, traces)?;
        Ok(Visits {
            done: Clock::new(alloc),
            clocks: zeros(alloc, traces.len())?,
            gates,
            last: 0,
        })
    }

    // Whether all that an entry waits for is visited.
    fn is_free(&self, e: Entry) -> bool
        requires { IsIndexed self.now.gates.index self.now.gates.list.items }
        ensures { (ts : Traces) (done : List ℕ) → AreGates ts done self.now.gates → MatchBool result (IsFree ts done e) (IsHeld ts done e) }
    {
        match e {
            Entry::Pass { o, c } => self.gates.is_open(o, c),
            _ => true,
        }
    }

    // The next entry of processor p, where all that it waits for is visited.
    fn ready(&self, traces: &[Trace], p: usize) -> Option<Visit>
        requires p { p < length traces.now }
        requires few { length traces.now < 2 ^ 32 }
        requires visits { AreVisits (lists_of traces.now) self.now }
        ensures { MatchOption result (IsLeft (lists_of traces.now) self.now.done p → IsBlocked (lists_of traces.now) self.now.done p) (CanVisit (lists_of traces.now) self.now.done) }
    {
        let i = u64::from(self.done.get(p));
        if let Some(entry) = traces[p].get(i) {
            if self.is_free(entry) {
                let place = Place { p: p as u32, i };
                return Some(Visit { place, entry });
            }
        }
        None
    }

    // An entry that can be visited next, if there is one: of the processor that was visited last where it has one.
    fn next(&self, traces: &[Trace]) -> Option<Visit>
        requires few { length traces.now < 2 ^ 32 }
        requires visits { AreVisits (lists_of traces.now) self.now }
        ensures { MatchOption result (AllBlocked (lists_of traces.now) self.now.done) (CanVisit (lists_of traces.now) self.now.done) }
    {
        if self.last < traces.len() {
            if let Some(v) = self.ready(traces, self.last) {
                return Some(v);
            }
        }
        for p in 0..traces.len() {
            if let Some(v) = self.ready(traces, p) {
                return Some(v);
            }
        }
        None
    }

    // Joins to the clock of processor p what its next entry stands behind.
    fn join(&mut self, p: usize, e: Entry) -> Result<(), NoMemory>
        requires p { p < length self.old.clocks.items }
        requires gates { (ts : Traces) × (done : List ℕ) × (y : Place) × AreGates ts done self.old.gates × Holds ts y e }
        ensures done { OnOk result (self.new.done ≡ self.old.done) }
        ensures len { OnOk result (length self.new.clocks.items ≡ length self.old.clocks.items) }
        ensures others { OnOk result ((q : ℕ) → q ≢ p → slice_get self.new.clocks.items q ≡ slice_get self.old.clocks.items q) }
        ensures gates { OnOk result ((ts : Traces) (done : List ℕ) → AreGates ts done self.old.gates → IsFree ts done e → AreGates ts done self.new.gates) }
        ensures joins { OnOk result ((ts : Traces) (done : List ℕ) (y : Place) (own past : List ℕ) → AreGates ts done self.old.gates → IsFree ts done e → Holds ts y e → slice_get self.old.clocks.items p ≡ Some own → slice_get self.new.clocks.items p ≡ Some past → JoinsSignals ts e own past) }
    {
        if let Entry::Pass { o, c } = e {
            self.gates.pass(o, c, &mut self.clocks[p])?;
        }
        Ok(())
    }

    // Tells those that stand behind a signal that it is visited.
    fn tell(&mut self, v: Visit) -> Result<(), NoMemory>
        requires p { v.place.p < length self.old.clocks.items }
        requires indexed { IsIndexed self.old.gates.index self.old.gates.list.items }
        ensures done { OnOk result (self.new.done ≡ self.old.done) }
        ensures clocks { OnOk result (self.new.clocks.items ≡ self.old.clocks.items) }
        ensures gates { OnOk result ((ts : Traces) (before clock : List ℕ) → slice_get self.old.clocks.items v.place.p ≡ Some clock → IsVisit ts before v.place clock self.old.done → Holds ts v.place v.entry → AreGates ts before self.old.gates → AreGates ts self.old.done self.new.gates) }
    {
        if let Entry::Signal { o, j } = v.entry {
            self.gates
                .signal(o, j, &self.clocks[v.place.p as usize], &self.done)?;
        }
        Ok(())
    }

    // Visits an entry.
    fn visit(&mut self, v: Visit) -> Result<(), NoMemory>
        requires p { v.place.p < length self.old.clocks.items }
        requires short { v.place.i + 1 < 2 ^ 32 }
        requires can { (ts : Traces) × AreVisits ts self.old × CanVisit ts self.old.done v }
        ensures { OnOk result ((ts : Traces) → AreVisits ts self.old → CanVisit ts self.old.done v → AreVisits ts self.new × IsNextVisit ts self.old v self.new) }
    {
        let p = v.place.p as usize;
        let n = v.place.i as u32 + 1;
        self.join(p, v.entry)?;
        self.clocks[p].put(v.place.p, n)?;
        self.done.put(v.place.p, n)?;
        self.tell(v)?;
        self.last = p;
        Ok(())
    }

    /// Visits one entry more, and None where no more can be visited.
    pub fn step(&mut self, traces: &[Trace]) -> Result<Option<Visit>, NoMemory>
        requires few { length traces.now < 2 ^ 32 }
        requires short { AreShort (lists_of traces.now) }
        requires visits { AreVisits (lists_of traces.now) self.old }
        ensures next { IfOk result (λ o. MatchOption o (AllBlocked (lists_of traces.now) self.old.done) (λ v. IsNextVisit (lists_of traces.now) self.old v self.new)) }
        ensures same { IfOk result (λ o. o ≡ None → self.new.done ≡ self.old.done) }
        ensures visits { OnOk result (AreVisits (lists_of traces.now) self.new) }
    {
        match self.next(traces) {
            Some(v) => {
                self.visit(v)?;
                Ok(Some(v))
            }
            None => Ok(None),
        }
    }

    /// Whether all entries are visited.
    pub fn is_over(&self, traces: &[Trace]) -> bool
        ensures { IsTrue result → AllVisited (lists_of traces.now) self.now.done }
    {
        for p in 0..traces.len() {
            if u64::from(self.done.get(p)) < traces[p].len() {
                return false;
            }
        }
        true
    }
}

/// Whether each trace has fewer than 2^32 entries.
pub fn are_short(traces: &[Trace]) -> bool
    ensures { IsTrue result → AreShort (lists_of traces.now) }
{
    for p in 0..traces.len() {
        if traces[p].len() > u64::from(u32::MAX) {
            return false;
        }
    }
    true
}
