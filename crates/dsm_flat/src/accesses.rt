// The accesses to a word.
ghost use Rattle.std.specs.Prelude.{◌≡◌, ℕ, ◌+◌, ◌<◌, ◌^◌, Some, length, slice_get, IfOk, OnOk};
ghost use Rattle.dsm_entry.specs.declared.entry.Place.{Place};
ghost use Rattle.dsm_flat.specs.declared.accesses.Access.{Access};
ghost use Rattle.dsm_flat.specs.Order.{Traces};
ghost use Rattle.dsm_entry.specs.Told.{lists_of};
ghost use Rattle.dsm_flat.specs.Accesses.{kind_of, IsListed, first_place};

use dsm_entry::entry::{Entry, NoMemory, Place};
use dsm_entry::trace::Trace;
use std::alloc::Global;

/// A place that loads or stores the word in question.
#[derive(Clone, Copy, Debug, PartialEq, Eq)]
pub struct Access {
    pub place: Place,
    pub stores: bool,
}

/// Whether an entry stores to w, and None where it doesn't access w.
pub fn kind(e: Entry, w: u32) -> Option<bool>
    ensures { result ≡ kind_of w e }
{
    match e {
        Entry::Load { w: at, .. } if at == w => Some(false),
        Entry::Store { w: at, .. } if at == w => Some(true),
        _ => None,
    }
}

// Appends the accesses of one trace to those of the traces before it.
fn add_trace(traces: &[Trace], p: usize, w: u32, list: &mut Vec<Access>) -> Result<(), NoMemory>
    requires p { p < length traces.now }
    requires few { length traces.now < 2 ^ 32 }
    requires listed { IsListed (lists_of traces.now) w (first_place p) list.old.items }
    ensures { OnOk result (IsListed (lists_of traces.now) w (first_place (p + 1)) list.new.items) }
{
    let trace = &traces[p];
    for i in 0..trace.len() {
        if let Some(e) = trace.get(i) {
            if let Some(stores) = kind(e, w) {
                let place = Place { p: p as u32, i };
                list.push(Access { place, stores })?;
            }
        }
    }
    Ok(())
}

/// All accesses to `w`, in the order of their places.
pub fn accesses(alloc: Global, traces: &[Trace], w: u32) -> Result<Vec<Access>, NoMemory>
    requires { length traces.now < 2 ^ 32 }
    ensures { IfOk result (λ v. IsListed (lists_of traces.now) w (first_place (length traces.now)) v.items) }
{
    let mut list = Vec::new(alloc);
    for p in 0..traces.len() {
        add_trace(traces, p, w, &mut list)?;
    }
    Ok(list)
}

/// Where the access at x stands in the list.
pub fn index_of(list: &[Access], x: Place) -> usize
    ensures { (ts : Traces) (w k : ℕ) (bound : Place) (a : Access) → IsListed ts w bound list.now → slice_get list.now k ≡ Some a → a.place ≡ x → result ≡ k }
{
    list.partition_point(|a| a.place < x)
}
