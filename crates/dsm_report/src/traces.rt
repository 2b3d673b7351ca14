ghost use Rattle.std.specs.Prelude.{◌≡◌, ◌++◌, [], ◌∷◌, map, flat_map, decimal, OnOk};
ghost use Rattle.dsm_report.specs.Report.{object_words, entry_words, trace_line, trace_lines};

use dsm_entry::entry::{Entry, NoMemory, Obj};
use dsm_entry::trace::Trace;
use dsm_list::lines::Lines;

/// A line for each entry of each processor.
pub(crate) fn write_traces(lines: &mut Lines, traces: &[Trace]) -> Result<(), NoMemory>
    ensures { OnOk result (lines.new ≡ lines.old ++ trace_lines 0 (map (λ t. t.list) traces.now)) }
{
    for (p, trace) in traces.iter().enumerate() {
        write_trace(lines, p as u64, trace)?;
    }
    Ok(())
}

/// A line for each entry of processor `p`.
fn write_trace(lines: &mut Lines, p: u64, trace: &Trace) -> Result<(), NoMemory>
    ensures { OnOk result (lines.new ≡ lines.old ++ flat_map (trace_line p) trace.now.list) }
{
    for i in 0..trace.len() {
        if let Some(entry) = trace.get(i) {
            write_entry(lines, p, entry)?;
        }
    }
    Ok(())
}

/// The line of an entry of processor `p`.
fn write_entry(lines: &mut Lines, p: u64, entry: Entry) -> Result<(), NoMemory>
    ensures { OnOk result (lines.new ≡ lines.old ++ trace_line p entry) }
{
    lines.first("t")?;
    lines.number(p)?;
    write_deed(lines, entry)?;
    lines.end()
}

/// The words for what a processor did.
fn write_deed(lines: &mut Lines, entry: Entry) -> Result<(), NoMemory>
    ensures { OnOk result (lines.new ≡ lines.old ++ flat_map (λ w. 32 ∷ w) (entry_words entry)) }
{
    match entry {
        Entry::Load { w, v } => write_access(lines, "load", w, v),
        Entry::Store { w, v } => write_access(lines, "store", w, v),
        Entry::Signal { o, j } => {
            lines.word("signal")?;
            write_object(lines, o)?;
            lines.number(j)
        }
        Entry::Pass { o, c } => {
            lines.word("pass")?;
            write_object(lines, o)?;
            lines.number(c)
        }
        Entry::Out { v } => {
            lines.word("out")?;
            lines.number(v)
        }
    }
}

/// The words for a load or a store of word `w`.
fn write_access(lines: &mut Lines, name: &str, w: u32, v: u64) -> Result<(), NoMemory>
    ensures { OnOk result (lines.new ≡ lines.old ++ flat_map (λ w. 32 ∷ w) (name.now ∷ decimal w ∷ decimal v ∷ [])) }
{
    lines.word(name)?;
    lines.number(u64::from(w))?;
    lines.number(v)
}

/// The words for what is synchronised at.
fn write_object(lines: &mut Lines, o: Obj) -> Result<(), NoMemory>
    ensures { OnOk result (lines.new ≡ lines.old ++ flat_map (λ w. 32 ∷ w) (object_words o)) }
{
    match o {
        Obj::Lock(l) => write_numbered(lines, "lock", l),
        Obj::Barrier(b) => write_numbered(lines, "barrier", b),
        Obj::Flag(f) => write_numbered(lines, "flag", f),
        Obj::Close => lines.word("close"),
    }
}

/// A name and a number, as further words.
fn write_numbered(lines: &mut Lines, name: &str, n: u32) -> Result<(), NoMemory>
    ensures { OnOk result (lines.new ≡ lines.old ++ flat_map (λ w. 32 ∷ w) (name.now ∷ decimal n ∷ [])) }
{
    lines.word(name)?;
    lines.number(u64::from(n))
}
