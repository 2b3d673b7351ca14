// The objects of all traces.
ghost use Rattle.std.specs.Prelude.{◌≡◌, ℕ, ◌+◌, ◌<◌, ◌^◌, ◌⊎◌, ◌↔◌, List, Some, [], length, IfOk, OnOk, MatchBool};
ghost use Rattle.dsm_entry.specs.declared.entry.Place.{Place};
ghost use Rattle.dsm_entry.specs.declared.entry.Entry.TheVariants.{Signal, Pass};
ghost use Rattle.dsm_entry.specs.Told.{lists_of};
ghost use Rattle.dsm_flat.specs.Order.{Traces, Holds};
ghost use Rattle.dsm_flat.specs.Accesses.{first_place};
ghost use Rattle.dsm_flat.specs.Clocks.{Counted, FromSignals};
ghost use Rattle.dsm_flat.specs.Racing.{IsVisit, CountsNone};
ghost use Rattle.dsm_flat.specs.Visits.{AreVisited, IsWaiting};
ghost use Rattle.dsm_flat.specs.Gates.{place_of, next_place, IsIndexed, AreAdded, AreGates};

use crate::clock::Clock;
use crate::gate::Gate;
use crate::index::Index;
use dsm_entry::entry::{Entry, NoMemory, Obj, Place};
use dsm_entry::trace::Trace;
use std::alloc::Global;

/// All objects that have a signal or a pass.
#[derive(Drop)]
pub struct Gates {
    pub list: Vec<Gate>,
    pub index: Index,
}

impl Gates {
    // No object.
    fn new(alloc: Global) -> Gates
        ensures { (ts : Traces) → AreAdded ts (first_place 0) result }
    {
        Gates {
            list: Vec::new(alloc),
            index: Index::new(alloc),
        }
    }

    // The place of an object, which gets one where it has none.
    fn enter(&mut self, alloc: Global, o: Obj) -> Result<usize, NoMemory>
        requires { IsIndexed self.old.index self.old.list.items }
        ensures place { IfOk result (λ k. place_of self.new.index o ≡ Some k) }
        ensures indexed { OnOk result (IsIndexed self.new.index self.new.list.items) }
        ensures added { OnOk result ((ts : Traces) (bound : Place) → AreAdded ts bound self.old → AreAdded ts bound self.new) }
    {
        if let Some(k) = self.index.find(o) {
            return Ok(k);
        }
        let k = self.list.len();
        self.index.put(o, k)?;
        self.list.push(Gate::new(alloc, o))?;
        Ok(k)
    }

    // Adds an entry to its object.
    fn add(&mut self, alloc: Global, e: Entry, place: Place) -> Result<(), NoMemory>
        requires { IsIndexed self.old.index self.old.list.items }
        ensures added { OnOk result ((ts : Traces) → Holds ts place e → AreAdded ts place self.old → AreAdded ts (next_place place) self.new) }
    {
        match e {
            Entry::Signal { o, j } => {
                let k = self.enter(alloc, o)?;
                self.list[k].add_signal(j, place)
            }
            Entry::Pass { o, c } => {
                let k = self.enter(alloc, o)?;
                self.list[k].add_pass(c)
            }
            _ => Ok(()),
        }
    }

    // Adds the entries of trace p.
    fn add_trace(&mut self, alloc: Global, traces: &[Trace], p: usize) -> Result<(), NoMemory>
        requires p { p < length traces.now }
        requires few { length traces.now < 2 ^ 32 }
        requires added { AreAdded (lists_of traces.now) (first_place p) self.old }
        ensures { OnOk result (AreAdded (lists_of traces.now) (first_place (p + 1)) self.new) }
    {
        let trace = &traces[p];
        for i in 0..trace.len() {
            if let Some(e) = trace.get(i) {
                self.add(alloc, e, Place { p: p as u32, i })?;
            }
        }
        Ok(())
    }

    // Puts all in order.
    fn order(&mut self, alloc: Global) -> Result<(), NoMemory>
        ensures { OnOk result ((ts : Traces) (done : List ℕ) → CountsNone done → AreAdded ts (first_place (length ts)) self.old → AreGates ts done self.new) }
    {
        for k in 0..self.list.len() {
            self.list[k].order(alloc)?;
        }
        Ok(())
    }

    /// The objects of these traces, of which no entry is visited.
    pub fn of(alloc: Global, traces: &[Trace]) -> Result<Gates, NoMemory>
        requires { length traces.now < 2 ^ 32 }
        ensures { IfOk result (λ gates. (done : List ℕ) → CountsNone done → AreGates (lists_of traces.now) done gates) }
    {
        let mut gates = Gates::new(alloc);
        for p in 0..traces.len() {
            gates.add_trace(alloc, traces, p)?;
        }
        gates.order(alloc)?;
        Ok(gates)
    }

    /// Whether all signals of `o` with numbers below `c` are visited.
    pub fn is_open(&self, o: Obj, c: u64) -> bool
        requires { IsIndexed self.now.index self.now.list.items }
        ensures { (ts : Traces) (done : List ℕ) → AreGates ts done self.now → MatchBool result (AreVisited ts o done c) (IsWaiting ts o done c) }
    {
        match self.index.find(o) {
            Some(k) => self.list[k].is_open(c),
            None => true,
        }
    }

    /// Signal `j` of `o` is visited. The clock is the signal's.
    pub fn signal(&mut self, o: Obj, j: u64, clock: &Clock, done: &Clock) -> Result<(), NoMemory>
        requires { IsIndexed self.old.index self.old.list.items }
        ensures { OnOk result ((ts : Traces) (before : List ℕ) (y : Place) → IsVisit ts before y clock.now done.now → Holds ts y (Signal o j) → AreGates ts before self.old → AreGates ts done.now self.new) }
    {
        if let Some(k) = self.index.find(o) {
            self.list[k].signal(j, clock, done)?;
        }
        Ok(())
    }

    /// A pass of `o` with count `c` is visited: its clock gets the signals with numbers below c, and what is before them.
    pub fn pass(&mut self, o: Obj, c: u64, clock: &mut Clock) -> Result<(), NoMemory>
        requires { (ts : Traces) × (done : List ℕ) × (y : Place) × AreGates ts done self.old × Holds ts y (Pass o c) }
        ensures indexed { OnOk result (IsIndexed self.new.index self.new.list.items) }
        ensures gates { OnOk result ((ts : Traces) (done : List ℕ) → AreGates ts done self.old → AreVisited ts o done c → AreGates ts done self.new) }
        ensures clock { OnOk result ((ts : Traces) (done : List ℕ) (y : Place) → AreGates ts done self.old → AreVisited ts o done c → Holds ts y (Pass o c) → (x : Place) → Counted clock.new x ↔ (Counted clock.old x ⊎ FromSignals ts o c x)) }
    {
        if let Some(k) = self.index.find(o) {
            self.list[k].pass(c, clock)?;
        }
        Ok(())
    }
}
