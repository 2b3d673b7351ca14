ghost use Rattle.std.specs.Prelude.{◌≡◌, ◌*◌, ◌++◌, ◌∷◌, length, map, codes, decimal, OnOk};
ghost use Rattle.dsm_isa.specs.ProgramText.{sizes_of};
ghost use Rattle.dsm_list.specs.Lines.{line};
ghost use Rattle.dsm_report.specs.Report.{page_lines};

use dsm_entry::entry::NoMemory;
use dsm_isa::shape::Shape;
use dsm_list::lines::Lines;

/// A line for each page.
pub(crate) fn write_pages(lines: &mut Lines, shape: Shape, words: &[u64]) -> Result<(), NoMemory>
    requires { length words.now ≡ shape.pages * shape.words }
    ensures { OnOk result (lines.new ≡ lines.old ++ page_lines (sizes_of shape) words.now) }
{
    let size = shape.words as usize;
    for g in 0..shape.pages as usize {
        write_page(lines, g as u64, &words[g * size..(g + 1) * size])?;
    }
    Ok(())
}

/// The line of page `g` and its words.
fn write_page(lines: &mut Lines, g: u64, words: &[u64]) -> Result<(), NoMemory>
    ensures { OnOk result (lines.new ≡ lines.old ++ line (codes "page" ∷ decimal g ∷ map decimal words.now)) }
{
    lines.first("page")?;
    lines.number(g)?;
    for word in words {
        lines.number(*word)?;
    }
    lines.end()
}
