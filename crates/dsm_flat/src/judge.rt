// Whether the accesses to a word are ordered.
ghost use Rattle.std.specs.Prelude.{◌≡◌, ◌≢◌, ℕ, ◌+◌, ◌<◌, ◌^◌, ◌⊎◌, ◌↔◌, List, true, false, length, IfOk, OnOk, IfSome, IsTrue, MatchBool, MatchOption};
ghost use Rattle.dsm_entry.specs.declared.entry.Place.{Place};
ghost use Rattle.dsm_flat.specs.declared.verdict.Verdict.TheVariants.{Ordered as SaysOrdered, Raced as SaysRaced};
ghost use Rattle.dsm_flat.specs.Order.{Traces, Holds};
ghost use Rattle.dsm_flat.specs.Flat.{Ordered};
ghost use Rattle.dsm_flat.specs.Racing.{IsVisit};
ghost use Rattle.dsm_flat.specs.Following.{AreShort};
ghost use Rattle.dsm_flat.specs.Latest.{IsLatest};
ghost use Rattle.dsm_entry.specs.Told.{lists_of};
ghost use Rattle.dsm_flat.specs.Judge.{IsFirstRace};
ghost use Rattle.dsm_flat.specs.Accesses.{IsShown, IsOrderedAt, IsRacyAt, IsOrderedUpTo};

use crate::accesses::{Access, accesses};
use crate::clock::Clock;
use crate::latest::Latest;
use crate::shown::{Shown, clocks, rows};
use crate::verdict::Verdict;
use crate::visits::{Visit, Visits, are_short};
use dsm_entry::entry::{Entry, NoMemory};
use dsm_entry::trace::Trace;
use std::alloc::Global;

// Whether at least one of two accesses stores.
fn conflict(x: Access, y: Access) -> bool
    ensures { MatchBool result ((x.stores ≡ true) ⊎ (y.stores ≡ true)) ((x.stores ≡ false) × (y.stores ≡ false)) }
{
    x.stores || y.stores
}

// Whether two accesses need no order or have one.
fn is_ordered(list: &[Access], shown: &Shown, k: usize, m: usize) -> bool
    requires k { k < length list.now }
    requires m { m < length list.now }
    requires other { k ≢ m }
    requires shown { (ts : Traces) × (w : ℕ) × IsShown ts w list.now shown.now }
    ensures { (ts : Traces) (w : ℕ) → IsShown ts w list.now shown.now → MatchBool result (IsOrderedAt ts list.now k m) (IsRacyAt ts list.now k m) }
{
    !conflict(list[k], list[m]) || shown.is_before(list, k, m) || shown.is_before(list, m, k)
}

// The first access behind the k-th that is not ordered with it.
fn first_racy(list: &[Access], shown: &Shown, k: usize) -> Option<usize>
    requires k { k < length list.now }
    requires shown { (ts : Traces) × (w : ℕ) × IsShown ts w list.now shown.now }
    ensures { (ts : Traces) (w : ℕ) → IsShown ts w list.now shown.now → MatchOption result (IsOrderedUpTo ts list.now k (length list.now)) (λ m. (k < m) × (m < length list.now) × IsOrderedUpTo ts list.now k m × IsRacyAt ts list.now k m) }
{
    for m in k + 1..list.len() {
        if !is_ordered(list, shown, k, m) {
            return Some(m);
        }
    }
    None
}

// The verdict on the word whose accesses are listed.
fn first_race(list: &[Access], shown: &Shown) -> Verdict
    requires { (ts : Traces) × (w : ℕ) × IsShown ts w list.now shown.now }
    ensures ordered { (ts : Traces) (w : ℕ) → IsShown ts w list.now shown.now → (result ≡ SaysOrdered) ↔ Ordered ts w }
    ensures raced { (ts : Traces) (w : ℕ) (x y : Place) → IsShown ts w list.now shown.now → (result ≡ SaysRaced x y) ↔ IsFirstRace ts w x y }
{
    for k in 0..list.len() {
        if let Some(m) = first_racy(list, shown, k) {
            return Verdict::Raced {
                x: list[k].place,
                y: list[m].place,
            };
        }
    }
    Verdict::Ordered
}

// The verdict by chains of edges, whatever the traces are.
fn by_chains(alloc: Global, traces: &[Trace], w: u32) -> Result<Verdict, NoMemory>
    requires { length traces.now < 2 ^ 32 }
    ensures ordered { IfOk result (λ v. (v ≡ SaysOrdered) ↔ Ordered (lists_of traces.now) w) }
    ensures raced { IfOk result (λ v. (x y : Place) → (v ≡ SaysRaced x y) ↔ IsFirstRace (lists_of traces.now) w x y) }
{
    let list = accesses(alloc, traces, w)?;
    let rows = rows(alloc, traces, &list)?;
    Ok(first_race(&list, &Shown::Rows(rows)))
}

// An entry is visited, which may access word w. The clock is the entry's.
fn note(latest: &mut Latest, w: u32, v: Visit, clock: &Clock) -> Result<(), NoMemory>
    requires { v.place.i + 1 < 2 ^ 32 }
    ensures { OnOk result ((ts : Traces) (done now : List ℕ) → IsVisit ts done v.place clock.now now → Holds ts v.place v.entry → IsLatest ts w done latest.old → IsLatest ts w now latest.new) }
{
    match v.entry {
        Entry::Load { w: at, .. } => {
            if at == w {
                latest.load(v.place, clock)?;
            }
        }
        Entry::Store { w: at, .. } => {
            if at == w {
                latest.store(v.place, clock);
            }
        }
        _ => (),
    }
    Ok(())
}

// Whether clocks show that the word is ordered. Where the order has a circle they don't.
fn shows_order(alloc: Global, traces: &[Trace], w: u32) -> Result<bool, NoMemory>
    requires few { length traces.now < 2 ^ 32 }
    requires short { AreShort (lists_of traces.now) }
    ensures { IfOk result (λ shown. IsTrue shown → Ordered (lists_of traces.now) w) }
{
    let mut latest = Latest::new(alloc);
    let mut visits = Visits::new(alloc, traces)?;
    while let Some(v) = visits.step(traces)? {
        note(&mut latest, w, v, &visits.clocks[v.place.p as usize])?;
    }
    if latest.races {
        return Ok(false);
    }
    Ok(visits.is_over(traces))
}

// The verdict by clocks, and None where the order has a circle.
fn by_clocks(alloc: Global, traces: &[Trace], w: u32) -> Result<Option<Verdict>, NoMemory>
    requires few { length traces.now < 2 ^ 32 }
    requires short { AreShort (lists_of traces.now) }
    ensures ordered { IfOk result (λ o. IfSome o (λ v. (v ≡ SaysOrdered) ↔ Ordered (lists_of traces.now) w)) }
    ensures raced { IfOk result (λ o. IfSome o (λ v. (x y : Place) → (v ≡ SaysRaced x y) ↔ IsFirstRace (lists_of traces.now) w x y)) }
{
    if shows_order(alloc, traces, w)? {
        return Ok(Some(Verdict::Ordered));
    }
    let list = accesses(alloc, traces, w)?;
    match clocks(alloc, traces, w, &list)? {
        Some(clocks) => Ok(Some(first_race(&list, &Shown::Clocks(clocks)))),
        None => Ok(None),
    }
}

/// Ordered exactly where every two conflicting places of `w` are, else the first pair that is not: the
/// least x, then the least y above x, in the order of places.
pub fn judge(alloc: Global, traces: &[Trace], w: u32) -> Result<Verdict, NoMemory>
    requires { length traces.now < 2 ^ 32 }
    ensures ordered { IfOk result (λ v. (v ≡ SaysOrdered) ↔ Ordered (lists_of traces.now) w) }
    ensures raced { IfOk result (λ v. (x y : Place) → (v ≡ SaysRaced x y) ↔ IsFirstRace (lists_of traces.now) w x y) }
{
    if are_short(traces) {
        if let Some(verdict) = by_clocks(alloc, traces, w)? {
            return Ok(verdict);
        }
    }
    by_chains(alloc, traces, w)
}
