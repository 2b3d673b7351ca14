// Traces and the entries in them, as tests write them.
ghost use Rattle.std.specs.Prelude.{◌≡◌, ◌++◌, IfOk, OnOk};

use dsm_entry::entry::{Entry, NoMemory, Obj};
use dsm_entry::trace::Trace;
use std::alloc::Global;

/// Appends these entries in their order. Where there is no memory, some of them stand.
pub fn append(trace: &mut Trace, entries: &[Entry]) -> Result<(), NoMemory>
    ensures { OnOk result (trace.new.list ≡ trace.old.list ++ entries.now) }
{
    for e in entries {
        trace.reserve_one()?;
        trace.push(*e);
    }
    Ok(())
}

/// The trace of these entries.
pub fn trace(alloc: Global, entries: &[Entry]) -> Result<Trace, NoMemory>
    ensures { IfOk result (λ t. t.list ≡ entries.now) }
{
    let mut trace = Trace::new(alloc);
    append(&mut trace, entries)?;
    Ok(trace)
}

/// A load of word `w`, which gave `v`.
pub fn load(w: u32, v: u64) -> Entry
    ensures { result ≡ Entry.Load w v }
{
    Entry::Load { w, v }
}

/// A store of `v` to word `w`.
pub fn store(w: u32, v: u64) -> Entry
    ensures { result ≡ Entry.Store w v }
{
    Entry::Store { w, v }
}

/// Signal `j` of an object.
pub fn signal(o: Obj, j: u64) -> Entry
    ensures { result ≡ Entry.Signal o j }
{
    Entry::Signal { o, j }
}

/// A pass of an object, with count `c`.
pub fn pass(o: Obj, c: u64) -> Entry
    ensures { result ≡ Entry.Pass o c }
{
    Entry::Pass { o, c }
}
