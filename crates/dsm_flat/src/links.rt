// The edges from signals to passes: for each signal, only the first pass of each processor.
ghost use Rattle.std.specs.Prelude.{◌<◌, length, IfOk};
ghost use Rattle.dsm_entry.specs.Told.{lists_of};
ghost use Rattle.dsm_flat.specs.Links.{LeadsTo, AreTraceLinks, AreLinks};

use crate::row::Row;
use dsm_entry::entry::{Entry, NoMemory};
use dsm_entry::trace::Trace;
use std::alloc::Global;

// The first passes behind a signal, and none for another entry.
fn link(alloc: Global, traces: &[Trace], e: Option<Entry>) -> Result<Row, NoMemory>
    ensures { IfOk result (LeadsTo (lists_of traces.now) e) }
{
    match e {
        Some(Entry::Signal { o, j }) => Row::first_passes(alloc, traces, o, j),
        _ => Ok(Row::empty(alloc)),
    }
}

// The links of each entry of one trace.
fn trace_links(alloc: Global, traces: &[Trace], trace: &Trace) -> Result<Vec<Row>, NoMemory>
    ensures { IfOk result (λ v. AreTraceLinks (lists_of traces.now) trace.now.list v.items) }
{
    let mut rows = Vec::new(alloc);
    for i in 0..trace.len() {
        rows.push(link(alloc, traces, trace.get(i))?)?;
    }
    Ok(rows)
}

/// For each entry of each trace the first passes that it leads to.
pub fn links(alloc: Global, traces: &[Trace]) -> Result<Vec<Vec<Row>>, NoMemory>
    ensures { IfOk result (λ v. AreLinks (lists_of traces.now) v.items) }
{
    let mut list = Vec::new(alloc);
    for trace in traces {
        list.push(trace_links(alloc, traces, trace)?)?;
    }
    Ok(list)
}
