// The passes that stand behind a signal.
ghost use Rattle.std.specs.Prelude.{◌↔◌, IsTrue};
ghost use Rattle.dsm_flat.specs.Links.{IsPass, IsFirstPass};

use dsm_entry::entry::{Entry, Obj};
use dsm_entry::trace::Trace;

// Whether this is a pass of o with a count above j.
fn is_pass(e: Option<Entry>, o: Obj, j: u64) -> bool
    ensures { IsTrue result ↔ IsPass o j e }
{
    match e {
        Some(Entry::Pass { o: other, c }) => other == o && c > j,
        _ => false,
    }
}

/// The first pass that stands behind signal `j` of `o`, or the length of the trace.
pub fn first_pass(trace: &Trace, o: Obj, j: u64) -> u64
    ensures { IsFirstPass trace.now.list o j result }
{
    for i in 0..trace.len() {
        if is_pass(trace.get(i), o, j) {
            return i;
        }
    }
    trace.len()
}
