ghost use Rattle.std.specs.Prelude.{◌≡◌, ◌++◌, flat_map, OnOk};
ghost use Rattle.dsm_report.specs.Report.{count_line, count_lines};

use dsm_entry::entry::NoMemory;
use dsm_list::lines::Lines;
use dsm_protocol::counts::Counts;

/// A line for each count.
#[tactic(auto, unfolding(crate::specs::Report::count_lines))]
pub(crate) fn write_counts(lines: &mut Lines, counts: Counts) -> Result<(), NoMemory>
    ensures { OnOk result (lines.new ≡ lines.old ++ count_lines counts) }
{
    let named = [
        ("read_faults", counts.read_faults),
        ("write_faults", counts.write_faults),
        ("overwrites", counts.overwrites),
        ("merges", counts.merges),
        ("twins", counts.twins),
        ("flushes", counts.flushes),
        ("early", counts.early),
        ("notices", counts.notices),
        ("unmaps", counts.unmaps),
        ("enters", counts.enters),
        ("breaks", counts.breaks),
        ("unready", counts.unready),
    ];
    write_named(lines, &named)
}

/// A line for each of these counts, which have names.
fn write_named(lines: &mut Lines, named: &[(&str, u64)]) -> Result<(), NoMemory>
    ensures { OnOk result (lines.new ≡ lines.old ++ flat_map (λ count. count_line count.0.now count.1) named.now) }
{
    for count in named {
        write_count(lines, count.0, count.1)?;
    }
    Ok(())
}

/// The line of the count of this name.
#[tactic(auto, unfolding(crate::specs::Report::count_line))]
fn write_count(lines: &mut Lines, name: &str, n: u64) -> Result<(), NoMemory>
    ensures { OnOk result (lines.new ≡ lines.old ++ count_line name.now n) }
{
    lines.first("count")?;
    lines.word(name)?;
    lines.number(n)?;
    lines.end()
}
