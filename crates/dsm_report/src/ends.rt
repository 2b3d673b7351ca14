ghost use Rattle.std.specs.Prelude.{◌≡◌, ◌++◌, ◌∷◌, flat_map, codes, decimal, OnOk};
ghost use Rattle.dsm_list.specs.Lines.{line};
ghost use Rattle.dsm_report.specs.Report.{trap_words, end_words, end_lines};

use dsm_entry::entry::NoMemory;
use dsm_list::lines::Lines;
use dsm_local::end::{End, Trap};

/// A line for the end of each processor.
pub(crate) fn write_ends(lines: &mut Lines, ends: &[Option<End>]) -> Result<(), NoMemory>
    ensures { OnOk result (lines.new ≡ lines.old ++ end_lines 0 ends.now) }
{
    for (p, end) in ends.iter().enumerate() {
        write_end(lines, p as u64, *end)?;
    }
    Ok(())
}

/// How processor `p` ended.
fn write_end(lines: &mut Lines, p: u64, end: Option<End>) -> Result<(), NoMemory>
    ensures { OnOk result (lines.new ≡ lines.old ++ line (codes "end" ∷ decimal p ∷ end_words end)) }
{
    lines.first("end")?;
    lines.number(p)?;
    match end {
        Some(end) => write_how(lines, end)?,
        None => lines.word("cut")?,
    }
    lines.end()
}

/// The words for an end.
fn write_how(lines: &mut Lines, end: End) -> Result<(), NoMemory>
    ensures { OnOk result (lines.new ≡ lines.old ++ flat_map (λ w. 32 ∷ w) (end_words (Some end))) }
{
    match end {
        End::Halted => lines.word("halted"),
        End::Trapped { at, kind } => {
            lines.word("trapped")?;
            lines.number(u64::from(at))?;
            write_trap(lines, kind)
        }
        End::Spent => lines.word("spent"),
        End::Looked => lines.word("looked"),
        End::Stopped { by } => {
            lines.word("stopped")?;
            lines.word("by")?;
            lines.number(u64::from(by))
        }
        End::NoMemory => lines.word("nomemory"),
    }
}

/// The words for what a processor could not do.
fn write_trap(lines: &mut Lines, kind: Trap) -> Result<(), NoMemory>
    ensures { OnOk result (lines.new ≡ lines.old ++ flat_map (λ w. 32 ∷ w) (trap_words kind)) }
{
    match kind {
        Trap::Address { w } => {
            lines.word("address")?;
            lines.number(w)
        }
        Trap::NotHeld { l } => {
            lines.word("notheld")?;
            lines.number(u64::from(l))
        }
        Trap::DivideByZero => lines.word("zero"),
    }
}
