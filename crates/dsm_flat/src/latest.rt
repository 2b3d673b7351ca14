// What is kept beside a word.
ghost use Rattle.std.specs.Prelude.{◌≡◌, ℕ, ◌+◌, ◌<◌, ◌^◌, ◌↔◌, List, None, true, false, OnOk, IsTrue};
ghost use Rattle.dsm_flat.specs.Order.{Traces};
ghost use Rattle.dsm_flat.specs.Flat.{IsStore};
ghost use Rattle.dsm_flat.specs.Racing.{IsVisit, IsLoad, CountsNone, CountsLast};
ghost use Rattle.dsm_flat.specs.Latest.{IsLatest};

use crate::clock::Clock;
use dsm_entry::entry::{NoMemory, Place};
use std::alloc::Global;

/// Of the visited accesses to a word those that decide about later ones: the last store, and of each processor the last load
/// since. Once two accesses race, nothing more is kept.
#[derive(Drop)]
pub struct Latest {
    pub store: Option<Place>,
    pub loads: Clock,
    pub races: bool,
}

impl Latest {
    /// No access is visited.
    pub fn new(alloc: Global) -> Latest
        ensures { (ts : Traces) (w : ℕ) (done : List ℕ) → CountsNone done → IsLatest ts w done result }
    {
        Latest {
            store: None,
            loads: Clock::new(alloc),
            races: false,
        }
    }

    // Whether a clock counts the last store.
    fn is_behind(&self, clock: &Clock) -> bool
        ensures { IsTrue result ↔ CountsLast clock.now self.now.store }
    {
        match self.store {
            Some(x) => clock.has(x),
            None => true,
        }
    }

    /// A load is visited. The clock is the load's.
    pub fn load(&mut self, x: Place, clock: &Clock) -> Result<(), NoMemory>
        requires { x.i + 1 < 2 ^ 32 }
        ensures { OnOk result ((ts : Traces) (w : ℕ) (done now : List ℕ) → IsVisit ts done x clock.now now → IsLoad ts w x → IsLatest ts w done self.old → IsLatest ts w now self.new) }
    {
        if self.races {
            return Ok(());
        }
        if self.is_behind(clock) {
            return self.loads.put(x.p, x.i as u32 + 1);
        }
        self.races = true;
        Ok(())
    }

    /// A store is visited. The clock is the store's.
    pub fn store(&mut self, x: Place, clock: &Clock)
        ensures { (ts : Traces) (w : ℕ) (done now : List ℕ) → IsVisit ts done x clock.now now → IsStore ts w x → IsLatest ts w done self.old → IsLatest ts w now self.new }
    {
        if self.races {
            return;
        }
        if self.is_behind(clock) && clock.covers(&self.loads) {
            self.store = Some(x);
            self.loads.clear();
        } else {
            self.races = true;
        }
    }
}
