ghost use Rattle.std.specs.Prelude.{◌≡◌, ◌++◌, map, flat_map, OnOk};
ghost use Rattle.dsm_report.specs.Report.{out_line, out_lines};

use dsm_entry::entry::{Entry, NoMemory};
use dsm_entry::trace::Trace;
use dsm_list::lines::Lines;

/// A line for each number that each processor printed.
pub(crate) fn write_outs(lines: &mut Lines, traces: &[Trace]) -> Result<(), NoMemory>
    ensures { OnOk result (lines.new ≡ lines.old ++ out_lines 0 (map (λ t. t.list) traces.now)) }
{
    for (p, trace) in traces.iter().enumerate() {
        write_outs_of(lines, p as u64, trace)?;
    }
    Ok(())
}

/// A line for each number that processor `p` printed.
fn write_outs_of(lines: &mut Lines, p: u64, trace: &Trace) -> Result<(), NoMemory>
    ensures { OnOk result (lines.new ≡ lines.old ++ flat_map (out_line p) trace.now.list) }
{
    for i in 0..trace.len() {
        if let Some(entry) = trace.get(i) {
            write_out(lines, p, entry)?;
        }
    }
    Ok(())
}

/// The line for an entry of processor `p`, where it printed a number.
fn write_out(lines: &mut Lines, p: u64, entry: Entry) -> Result<(), NoMemory>
    ensures { OnOk result (lines.new ≡ lines.old ++ out_line p entry) }
{
    let Entry::Out { v } = entry else {
        return Ok(());
    };
    lines.first("out")?;
    lines.number(p)?;
    lines.number(v)?;
    lines.end()
}
