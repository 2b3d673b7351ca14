// What shows which accesses to a word are before others.
ghost use Rattle.std.specs.Prelude.{◌≡◌, ◌≢◌, ℕ, ◌<◌, ◌^◌, ◌↔◌, List, length, IfOk, OnOk, IfSome, IsTrue};
ghost use Rattle.dsm_entry.specs.Told.{lists_of};
ghost use Rattle.dsm_flat.specs.Order.{Traces, Holds};
ghost use Rattle.dsm_flat.specs.Racing.{IsVisit};
ghost use Rattle.dsm_flat.specs.Following.{AreShort};
ghost use Rattle.dsm_flat.specs.Accesses.{IsListed, AreAt, AreRows, AreClocks, AreKept, IsShown, IsBeforeAt, first_place};

use crate::accesses::{Access, index_of, kind};
use crate::clock::{Clock, zeros};
use crate::links::links;
use crate::reach::reach;
use crate::row::Row;
use crate::visits::{Visit, Visits};
use dsm_entry::entry::NoMemory;
use dsm_entry::trace::Trace;
use std::alloc::Global;

/// What shows of each two accesses of a list whether the one is before the other.
#[derive(Drop)]
pub enum Shown {
    /// What each access is before.
    Rows(Vec<Row>),
    /// The clock of each access.
    Clocks(Vec<Clock>),
}

impl Shown {
    /// Whether access k is before another one, m.
    pub fn is_before(&self, list: &[Access], k: usize, m: usize) -> bool
        requires k { k < length list.now }
        requires m { m < length list.now }
        requires other { k ≢ m }
        requires shown { (ts : Traces) × (w : ℕ) × IsShown ts w list.now self.now }
        ensures { (ts : Traces) (w : ℕ) → IsShown ts w list.now self.now → IsTrue result ↔ IsBeforeAt ts list.now k m }
    {
        match self {
            Shown::Rows(rows) => rows[k].covers(list[m].place),
            Shown::Clocks(clocks) => clocks[m].has(list[k].place),
        }
    }
}

/// For each access of the list what it is before.
pub fn rows(alloc: Global, traces: &[Trace], list: &[Access]) -> Result<Vec<Row>, NoMemory>
    requires { AreAt (lists_of traces.now) list.now }
    ensures { IfOk result (λ v. AreRows (lists_of traces.now) list.now v.items) }
{
    let links = links(alloc, traces)?;
    let mut rows = Vec::new(alloc);
    for x in list {
        rows.push(reach(alloc, traces, &links, x.place)?)?;
    }
    Ok(rows)
}

// An entry is visited, which may access word w. The clock is the entry's, and an access keeps it.
fn keep(
    list: &[Access],
    w: u32,
    v: Visit,
    clock: &Clock,
    kept: &mut Vec<Clock>,
) -> Result<(), NoMemory>
    requires len { length kept.old.items ≡ length list.now }
    requires listed { (ts : Traces) × IsListed ts w (first_place (length ts)) list.now × Holds ts v.place v.entry }
    ensures { OnOk result ((ts : Traces) (done now : List ℕ) → IsListed ts w (first_place (length ts)) list.now → IsVisit ts done v.place clock.now now → Holds ts v.place v.entry → AreKept ts done list.now kept.old.items → AreKept ts now list.now kept.new.items) }
{
    if kind(v.entry, w).is_some() {
        let k = index_of(list, v.place);
        kept[k] = clock.copy()?;
    }
    Ok(())
}

/// The clock of each access of the list, where the order has no circle.
pub fn clocks(
    alloc: Global,
    traces: &[Trace],
    w: u32,
    list: &[Access],
) -> Result<Option<Vec<Clock>>, NoMemory>
    requires few { length traces.now < 2 ^ 32 }
    requires short { AreShort (lists_of traces.now) }
    requires listed { IsListed (lists_of traces.now) w (first_place (length traces.now)) list.now }
    ensures { IfOk result (λ o. IfSome o (λ v. AreClocks (lists_of traces.now) list.now v.items)) }
{
    let mut kept = zeros(alloc, list.len())?;
    let mut visits = Visits::new(alloc, traces)?;
    while let Some(v) = visits.step(traces)? {
        keep(list, w, v, &visits.clocks[v.place.p as usize], &mut kept)?;
    }
    if visits.is_over(traces) {
        Ok(Some(kept))
    } else {
        Ok(None)
    }
}
