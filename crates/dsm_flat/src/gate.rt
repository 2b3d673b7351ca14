// What passes of one object wait for: its signals, and the clocks that these leave.
ghost use Rattle.std.specs.Prelude.{◌≡◌, ℕ, ◌+◌, ◌<◌, ◌≤◌, ◌⊎◌, ◌↔◌, ◌++◌, ◌∷◌, [], List, length, slice_index, vec_len, IfOk, OnOk, IsTrue, MatchBool};
ghost use Rattle.dsm_entry.specs.declared.entry.Place.{Place};
ghost use Rattle.dsm_entry.specs.declared.entry.Entry.TheVariants.{Signal, Pass};
ghost use Rattle.dsm_flat.specs.Order.{Traces, Holds};
ghost use Rattle.dsm_flat.specs.Clocks.{Counted, FromSignals};
ghost use Rattle.dsm_flat.specs.Racing.{IsVisit, CountsNone};
ghost use Rattle.dsm_flat.specs.Visits.{AreVisited, IsWaiting};
ghost use Rattle.dsm_flat.specs.Gates.{Rises, IsFirstAbove, IsGateOf, IsNew, IsSeen, AreSigns, AreAlike};
ghost use Rattle.dsm_flat.specs.Accesses.{first_place};

use crate::clock::{Clock, zeros};
use dsm_entry::entry::{NoMemory, Obj, Place};
use std::alloc::Global;

/// The signal of number `j`, and where it stands.
#[derive(Clone, Copy, Debug, PartialEq, Eq)]
pub struct Mark {
    pub j: u64,
    pub place: Place,
}

/// One object. Its passes are told apart by their counts: for each count that some pass has there is one clock. Where such a
/// clock is closed, it counts the signals with numbers below its count, with what is before them; else those of these that are
/// visited and are behind no lower count.
#[derive(Drop)]
pub struct Gate {
    pub o: Obj,
    // All signals, by number, and how many of the first are visited.
    pub signals: Vec<Mark>,
    pub seen: usize,
    // The counts of its passes, rising, and a clock for each. So many of the first are closed.
    pub counts: Vec<u64>,
    pub clocks: Vec<Clock>,
    pub closed: usize,
    // What the closed clocks count.
    pub all: Clock,
}

// The first of the rising counts that is above j, or their number where none is.
fn first_above(counts: &[u64], j: u64) -> usize
    ensures within { result ≤ length counts.now }
    ensures above { Rises counts.now → IsFirstAbove counts.now j result }
{
    counts.partition_point(|n| *n <= j)
}

impl Gate {
    /// An object with no signal and no pass.
    pub fn new(alloc: Global, o: Obj) -> Gate
        ensures o { result.o ≡ o }
        ensures new { IsNew result }
        ensures signals { result.signals.items ≡ [] }
        ensures counts { result.counts.items ≡ [] }
    {
        Gate {
            o,
            signals: Vec::new(alloc),
            seen: 0,
            counts: Vec::new(alloc),
            clocks: Vec::new(alloc),
            closed: 0,
            all: Clock::new(alloc),
        }
    }

    /// One signal more.
    pub fn add_signal(&mut self, j: u64, place: Place) -> Result<(), NoMemory>
        ensures o { self.new.o ≡ self.old.o }
        ensures new { IsNew self.old → IsNew self.new }
        ensures signals { OnOk result (self.new.signals.items ≡ self.old.signals.items ++ record { j = j; place = place } ∷ []) }
        ensures counts { self.new.counts.items ≡ self.old.counts.items }
    {
        self.signals.push(Mark { j, place })?;
        Ok(())
    }

    /// One pass more.
    pub fn add_pass(&mut self, c: u64) -> Result<(), NoMemory>
        ensures o { self.new.o ≡ self.old.o }
        ensures new { IsNew self.old → IsNew self.new }
        ensures signals { self.new.signals.items ≡ self.old.signals.items }
        ensures counts { OnOk result (self.new.counts.items ≡ self.old.counts.items ++ c ∷ []) }
    {
        self.counts.push(c)?;
        Ok(())
    }

    /// Puts signals and counts in order, where no entry is visited.
    pub fn order(&mut self, alloc: Global) -> Result<(), NoMemory>
        ensures o { OnOk result (self.new.o ≡ self.old.o) }
        ensures gate { OnOk result ((ts : Traces) (done : List ℕ) → CountsNone done → IsNew self.old → AreSigns ts self.old.o (first_place (length ts)) self.old.signals.items self.old.counts.items → IsGateOf ts done self.new) }
    {
        self.signals.sort_unstable_by_key(|m| m.j);
        self.counts.sort_unstable();
        self.counts.dedup();
        self.clocks = zeros(alloc, self.counts.len())?;
        Ok(())
    }

    /// Whether all signals with numbers below `c` are visited.
    pub fn is_open(&self, c: u64) -> bool
        ensures { (ts : Traces) (done : List ℕ) → IsGateOf ts done self.now → MatchBool result (AreVisited ts self.now.o done c) (IsWaiting ts self.now.o done c) }
    {
        match self.signals.get(self.seen) {
            Some(m) => c <= m.j,
            None => true,
        }
    }

    // Goes on over signals that are visited.
    fn see(&mut self, done: &Clock)
        ensures alike { AreAlike self.new self.old }
        ensures clocks { self.new.clocks.items ≡ self.old.clocks.items }
        ensures closed { self.new.closed ≡ self.old.closed }
        ensures all { self.new.all ≡ self.old.all }
        ensures seen { IsSeen self.old.signals.items done.now self.old.seen self.new.seen }
    {
        while self.seen < self.signals.len() && done.has(self.signals[self.seen].place) {
            self.seen += 1;
        }
    }

    /// Its signal `j` is visited. The clock is the signal's.
    pub fn signal(&mut self, j: u64, clock: &Clock, done: &Clock) -> Result<(), NoMemory>
        ensures o { OnOk result (self.new.o ≡ self.old.o) }
        ensures gate { OnOk result ((ts : Traces) (before : List ℕ) (y : Place) → IsVisit ts before y clock.now done.now → Holds ts y (Signal self.old.o j) → IsGateOf ts before self.old → IsGateOf ts done.now self.new) }
    {
        let k = first_above(&self.counts, j);
        if k < self.clocks.len() {
            self.clocks[k].join(clock)?;
        }
        self.see(done);
        Ok(())
    }

    // Closes the next clock.
    fn close_next(&mut self) -> Result<(), NoMemory>
        requires { self.old.closed < length self.old.clocks.items }
        ensures alike { OnOk result (AreAlike self.new self.old) }
        ensures len { OnOk result (length self.new.clocks.items ≡ length self.old.clocks.items) }
        ensures closed { OnOk result (self.new.closed ≡ self.old.closed + 1) }
        ensures gate { OnOk result ((ts : Traces) (done : List ℕ) → IsGateOf ts done self.old → AreVisited ts self.old.o done (slice_index self.old.counts.items self.old.closed) → IsGateOf ts done self.new) }
    {
        let k = self.closed;
        self.all.join(&self.clocks[k])?;
        self.clocks[k].join(&self.all)?;
        self.closed = k + 1;
        Ok(())
    }

    /// A pass of count `c` is visited: its clock gets the signals with numbers below c, and what is before them.
    pub fn pass(&mut self, c: u64, clock: &mut Clock) -> Result<(), NoMemory>
        requires { (ts : Traces) × (done : List ℕ) × (y : Place) × IsGateOf ts done self.old × Holds ts y (Pass self.old.o c) }
        ensures o { OnOk result (self.new.o ≡ self.old.o) }
        ensures gate { OnOk result ((ts : Traces) (done : List ℕ) → IsGateOf ts done self.old → AreVisited ts self.old.o done c → IsGateOf ts done self.new) }
        ensures clock { OnOk result ((ts : Traces) (done : List ℕ) (y : Place) → IsGateOf ts done self.old → AreVisited ts self.old.o done c → Holds ts y (Pass self.old.o c) → (x : Place) → Counted clock.new x ↔ (Counted clock.old x ⊎ FromSignals ts self.old.o c x)) }
    {
        let n = first_above(&self.counts, c);
        for _k in self.closed..n {
            self.close_next()?;
        }
        clock.join(&self.clocks[n - 1])
    }
}
