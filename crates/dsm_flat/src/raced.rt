// Which words are not ordered.
ghost use Rattle.std.specs.Prelude.{◌≡◌, ℕ, ◌+◌, ◌<◌, ◌^◌, ◌↔◌, List, Some, true, false, length, map, slice_get, IfOk, OnOk};
ghost use Rattle.dsm_entry.specs.Told.{lists_of};
ghost use Rattle.dsm_flat.specs.Order.{Traces, Holds, NoCircle};
ghost use Rattle.dsm_flat.specs.Flat.{Ordered};
ghost use Rattle.dsm_flat.specs.Racing.{IsVisit, CountsNone};
ghost use Rattle.dsm_flat.specs.Following.{AreShort};
ghost use Rattle.dsm_flat.specs.Latest.{AreLatest};

use crate::clock::Clock;
use crate::latest::Latest;
use crate::visits::{Visit, Visits};
use dsm_entry::entry::{Entry, NoMemory};
use dsm_entry::trace::Trace;
use std::alloc::Global;

// So many words, none of which is accessed yet.
fn untouched(alloc: Global, words: u32) -> Result<Vec<Latest>, NoMemory>
    ensures len { IfOk result (λ v. length v.items ≡ words) }
    ensures latest { IfOk result (λ v. (ts : Traces) (done : List ℕ) → CountsNone done → AreLatest ts done v.items) }
{
    let mut list = Vec::new(alloc);
    for _w in 0..words {
        list.push(Latest::new(alloc))?;
    }
    Ok(list)
}

// An entry is visited. The clock is the entry's.
fn note(list: &mut Vec<Latest>, v: Visit, clock: &Clock) -> Result<(), NoMemory>
    requires { v.place.i + 1 < 2 ^ 32 }
    ensures len { OnOk result (length list.new.items ≡ length list.old.items) }
    ensures latest { OnOk result ((ts : Traces) (done now : List ℕ) → IsVisit ts done v.place clock.now now → Holds ts v.place v.entry → AreLatest ts done list.old.items → AreLatest ts now list.new.items) }
{
    match v.entry {
        Entry::Load { w, .. } => {
            if (w as usize) < list.len() {
                list[w as usize].load(v.place, clock)?;
            }
        }
        Entry::Store { w, .. } => {
            if (w as usize) < list.len() {
                list[w as usize].store(v.place, clock);
            }
        }
        _ => (),
    }
    Ok(())
}

// For each word whether it is known that it is not ordered.
fn races(alloc: Global, list: &[Latest]) -> Result<Vec<bool>, NoMemory>
    ensures { IfOk result (λ races. races.items ≡ map (λ l. l.races) list.now) }
{
    let mut races = Vec::new(alloc);
    for latest in list {
        races.push(latest.races)?;
    }
    Ok(races)
}

/// For each word whether it is not ordered.
pub fn raced(alloc: Global, traces: &[Trace], words: u32) -> Result<Vec<bool>, NoMemory>
    requires few { length traces.now < 2 ^ 32 }
    requires no_circle { NoCircle (lists_of traces.now) }
    requires short { AreShort (lists_of traces.now) }
    ensures len { IfOk result (λ races. length races.items ≡ words) }
    ensures ordered { IfOk result (λ races. (w : ℕ) → w < words → (slice_get races.items w ≡ Some false) ↔ Ordered (lists_of traces.now) w) }
    ensures raced { IfOk result (λ races. (w : ℕ) → w < words → (slice_get races.items w ≡ Some true) ↔ (Ordered (lists_of traces.now) w → ⊥)) }
{
    let mut list = untouched(alloc, words)?;
    let mut visits = Visits::new(alloc, traces)?;
    while let Some(v) = visits.step(traces)? {
        note(&mut list, v, &visits.clocks[v.place.p as usize])?;
    }
    races(alloc, &list)
}
