// What a place is before.
ghost use Rattle.std.specs.Prelude.{◌≡◌, ℕ, ◌<◌, ◌≤◌, length, slice_index, map, IfOk, MatchOption};
ghost use Rattle.dsm_entry.specs.Told.{lists_of};
ghost use Rattle.dsm_flat.specs.Links.{AreLinks};
ghost use Rattle.dsm_flat.specs.Rows.{IsAt, IsReach};

use crate::row::Row;
use dsm_entry::entry::{NoMemory, Place};
use dsm_entry::trace::Trace;
use std::alloc::Global;

// A processor of which more is reached than was looked at.
fn pending(reached: &Row, scanned: &Row) -> Option<usize>
    requires { length reached.now ≡ length scanned.now }
    ensures { MatchOption result ((q : ℕ) → q < length scanned.now → slice_index scanned.now q ≤ slice_index reached.now q) (λ q. (q < length scanned.now) × (slice_index reached.now q < slice_index scanned.now q)) }
{
    for q in 0..scanned.len() {
        if reached.get(q) < scanned.get(q) {
            return Some(q);
        }
    }
    None
}

// From x along the edges. Each entry that is reached is looked at once.
fn search(traces: &[Trace], links: &[Vec<Row>], x: Place, reached: &mut Row, scanned: &mut Row)
    requires at { IsAt (lists_of traces.now) x }
    requires links { AreLinks (lists_of traces.now) links.now }
    requires reached { reached.old ≡ map (λ t. length t.list) traces.now }
    requires scanned { scanned.old ≡ map (λ t. length t.list) traces.now }
    ensures { IsReach (lists_of traces.now) x reached.new }
{
    let len = traces[x.p as usize].len();
    prove!(x.i < len);
    reached.set(x.p as usize, x.i + 1);
    while let Some(p) = pending(reached, scanned) {
        let i = scanned.get(p) - 1;
        scanned.set(p, i);
        reached.lower(&links[p][i as usize]);
    }
}

/// For each processor the first place that an access `x` is before, or the length of its trace.
pub fn reach(alloc: Global, traces: &[Trace], links: &[Vec<Row>], x: Place) -> Result<Row, NoMemory>
    requires at { IsAt (lists_of traces.now) x }
    requires links { AreLinks (lists_of traces.now) links.now }
    ensures { IfOk result (IsReach (lists_of traces.now) x) }
{
    let mut reached = Row::ends(alloc, traces)?;
    let mut scanned = Row::ends(alloc, traces)?;
    search(traces, links, x, &mut reached, &mut scanned);
    Ok(reached)
}
