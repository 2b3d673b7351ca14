// Clocks: for each processor a number of its first entries.
ghost use Rattle.std.specs.Prelude.{◌≡◌, ℕ, ◌+◌, ◌<◌, ◌^◌, ◌≤◌, ◌↔◌, List, [], Some, length, slice_get, slice_index, IsTrue, IfOk, OnOk};
ghost use Rattle.dsm_flat.specs.Clocks.{Counted, IsPut, IsUnion};
ghost use Rattle.dsm_flat.specs.Racing.{CountsLoads};

use dsm_entry::entry::{NoMemory, Place};
use std::alloc::Global;
use std::marker::Model;

/// For each processor a number of its first entries, and 0 for one behind the last.
#[derive(Drop)]
pub struct Clock {
    counts: Vec<u32>,
}

impl Model for Clock {
    ghost use Rattle.std.specs.Prelude.{ℕ, List};

    ghost Value = { List ℕ };

    ghost view = { λ c. c.counts.items };
}

impl Clock {
    /// A clock that counts no entry. It takes no memory.
    pub fn new(alloc: Global) -> Clock
        ensures { result ≡ [] }
    {
        Clock {
            counts: Vec::new(alloc),
        }
    }

    /// Another clock that counts the same.
    pub fn copy(&self) -> Result<Clock, NoMemory>
        ensures { IfOk result (λ c. c ≡ self.now) }
    {
        let counts = self.counts.clone()?;
        Ok(Clock { counts })
    }

    /// How many entries of processor `q` are counted.
    pub fn get(&self, q: usize) -> u32
        ensures { result ≡ slice_index self.now q }
    {
        match self.counts.get(q) {
            Some(n) => *n,
            None => 0,
        }
    }

    /// Whether a place is counted.
    pub fn has(&self, x: Place) -> bool
        ensures { IsTrue result ↔ Counted self.now x }
    {
        x.i < u64::from(self.get(x.p as usize))
    }

    // Makes it as long as `len`, with zeros behind the last number.
    fn widen(&mut self, len: usize) -> Result<(), NoMemory>
        ensures wide { OnOk result (len ≤ length self.new) }
        ensures same { OnOk result ((q : ℕ) → slice_index self.new q ≡ slice_index self.old q) }
    {
        for _n in self.counts.len()..len {
            self.counts.push(0)?;
        }
        Ok(())
    }

    /// Puts the number of processor `p`.
    pub fn put(&mut self, p: u32, n: u32) -> Result<(), NoMemory>
        ensures { OnOk result (IsPut self.old p n self.new) }
    {
        let p = p as usize;
        self.widen(p + 1)?;
        self.counts[p] = n;
        Ok(())
    }

    /// Counts what it or the other clock counts.
    pub fn join(&mut self, other: &Clock) -> Result<(), NoMemory>
        ensures { OnOk result (IsUnion self.old other.now self.new) }
    {
        self.widen(other.counts.len())?;
        for q in 0..other.counts.len() {
            if self.counts[q] < other.counts[q] {
                self.counts[q] = other.counts[q];
            }
        }
        Ok(())
    }

    /// Whether it counts of each processor no less than the other.
    pub fn covers(&self, other: &Clock) -> bool
        ensures { IsTrue result ↔ CountsLoads self.now other.now }
    {
        for q in 0..other.counts.len() {
            if self.get(q) < other.counts[q] {
                return false;
            }
        }
        true
    }

    /// Counts no entry. It keeps its memory.
    pub fn clear(&mut self)
        ensures { self.new ≡ [] }
    {
        self.counts.clear();
    }
}

/// So many clocks that count no entry.
pub fn zeros(alloc: Global, n: usize) -> Result<Vec<Clock>, NoMemory>
    ensures len { IfOk result (λ v. length v.items ≡ n) }
    ensures none { IfOk result (λ v. (k : ℕ) (clock : List ℕ) → slice_get v.items k ≡ Some clock → clock ≡ []) }
{
    let mut list = Vec::new(alloc);
    for _k in 0..n {
        list.push(Clock::new(alloc))?;
    }
    Ok(list)
}
