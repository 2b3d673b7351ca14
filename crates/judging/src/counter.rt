// Traces of a lock counter.
ghost use Rattle.std.specs.Prelude.{◌≡◌, ◌≤◌, ◌+◌, length, OnOk, IfOk};

use dsm_entry::entry::{NoMemory, Obj};
use dsm_entry::trace::Trace;
use dsm_samples::entries::{append, load, pass, signal, store, trace};
use std::alloc::Global;

/// Processors add 1 to word 0 under lock 0, one behind the other, with so many turns together. A turn is four entries:
/// a pass, a load, a store and a signal.
pub(crate) fn counter(alloc: Global, turns: u64, processors: u64) -> Result<Vec<Trace>, NoMemory>
    requires { 1 ≤ processors }
    ensures { IfOk result (λ traces. length traces.items ≡ processors) }
{
    let lock = Obj::Lock(0);
    let mut traces = Vec::new(alloc);
    for _ in 0..processors {
        traces.push(Trace::new(alloc))?;
    }
    for c in 0..turns {
        let turn = [pass(lock, c), load(0, c), store(0, c + 1), signal(lock, c)];
        append(&mut traces[(c % processors) as usize], &turn)?;
    }
    Ok(traces)
}

/// Two processors more, each of which waits for the other.
pub(crate) fn add_circle(alloc: Global, traces: &mut Vec<Trace>) -> Result<(), NoMemory>
    ensures { OnOk result (length traces.new.items ≡ length traces.old.items + 2) }
{
    let (a, b) = (Obj::Flag(0), Obj::Flag(1));
    traces.push(trace(alloc, &[pass(a, 1), signal(b, 0)])?)?;
    traces.push(trace(alloc, &[pass(b, 1), signal(a, 0)])?)?;
    Ok(())
}
