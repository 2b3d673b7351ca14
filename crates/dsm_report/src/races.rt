ghost use Rattle.std.specs.Prelude.{◌≡◌, ◌++◌, OnOk};
ghost use Rattle.dsm_report.specs.Report.{race_line, race_lines};

use dsm_entry::entry::NoMemory;
use dsm_list::lines::Lines;

/// A line for each word that is not ordered.
pub(crate) fn write_races(lines: &mut Lines, races: &[bool]) -> Result<(), NoMemory>
    ensures { OnOk result (lines.new ≡ lines.old ++ race_lines 0 races.now) }
{
    for (w, raced) in races.iter().enumerate() {
        write_race(lines, w as u64, *raced)?;
    }
    Ok(())
}

/// The line for word `w`, where it is not ordered.
fn write_race(lines: &mut Lines, w: u64, raced: bool) -> Result<(), NoMemory>
    ensures { OnOk result (lines.new ≡ lines.old ++ race_line w raced) }
{
    if !raced {
        return Ok(());
    }
    lines.first("raced")?;
    lines.number(w)?;
    lines.end()
}
