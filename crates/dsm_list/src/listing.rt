ghost use Rattle.std.specs.Prelude.{◌≡◌, ◌+◌, ◌<◌, ◌≤◌, ◌^◌, ℕ, ◌++◌, [], ◌∷◌, false, codes, decimal, length, map, flat_map, slice_index_or, if◌then◌else◌, All, None, IfOk, OnOk};
ghost use Rattle.dsm_isa.specs.Limits.{IsWithinLimits};
ghost use Rattle.dsm_isa.specs.ProgramText.{sizes_of};
ghost use Rattle.dsm_grammar.specs.Faults.{first_fault_of};
ghost use Rattle.dsm_grammar.specs.Grammar.{program_of};
ghost use Rattle.dsm_list.specs.Lines.{joined, line};
ghost use Rattle.dsm_isa.specs.Operands.{IsInRange};
ghost use Rattle.dsm_list.specs.Canonical.{canonical, shape_line, size_lines, init_line, label_line, is_target, code_lines};

use crate::instructions::write_instr;
use crate::lines::Lines;
use crate::targets::targets;
use dsm_entry::entry::NoMemory;
use dsm_isa::instr::Instr;
use dsm_isa::program::Program;
use dsm_isa::shape::Shape;
use itoa::Buffer;
use std::alloc::Global;

/// The canonical text of a program. A label stands only where some instruction jumps.
#[tactic(auto, unfolding(crate::specs::Canonical::canonical))]
pub fn list(alloc: Global, program: &Program) -> Result<Vec<u8>, NoMemory>
    ensures canonical { IfOk result (λ text. text.items ≡ canonical program.now) }
    ensures accepted { IfOk result (λ text. first_fault_of text.items ≡ None) }
    ensures same { IfOk result (λ text. program_of text.items ≡ program.now) }
{
    let mut lines = Lines::new(alloc);
    write_sizes(&mut lines, program.shape())?;
    let init = program.init();
    write_initial(&mut lines, init)?;
    let marks = targets(alloc, program.code())?;
    write_code(&mut lines, program.code().as_slice(), &marks)?;
    Ok(lines.into_bytes())
}

/// The line of a program's sizes and of how many instructions it has.
#[tactic(auto, unfolding(crate::specs::Canonical::shape_line))]
pub fn shape_text(alloc: Global, program: &Program) -> Result<Vec<u8>, NoMemory>
    ensures { IfOk result (λ text. text.items ≡ shape_line program.now) }
{
    let mut lines = Lines::new(alloc);
    let shape = program.shape();
    lines.first("program")?;
    write_named(&mut lines, "pages", shape.pages)?;
    write_named(&mut lines, "words", shape.words)?;
    write_named(&mut lines, "locks", shape.locks)?;
    write_named(&mut lines, "barriers", shape.barriers)?;
    write_named(&mut lines, "flags", shape.flags)?;
    write_named(&mut lines, "code", program.code().len())?;
    lines.end()?;
    Ok(lines.into_bytes())
}

/// A name and a number, as further words.
fn write_named(lines: &mut Lines, name: &str, n: u32) -> Result<(), NoMemory>
    ensures { OnOk result (lines.new ≡ lines.old ++ flat_map (λ w. 32 ∷ w) (name.now ∷ decimal n ∷ [])) }
{
    lines.word(name)?;
    lines.number(u64::from(n))
}

/// The directives of the sizes.
fn write_sizes(lines: &mut Lines, shape: Shape) -> Result<(), NoMemory>
    ensures text { OnOk result (lines.new ≡ lines.old ++ flat_map line (size_lines (sizes_of shape))) }
    ensures within { IsWithinLimits shape.pages shape.words shape.locks shape.barriers shape.flags }
{
    write_size(lines, ".pages", shape.pages)?;
    write_size(lines, ".words", shape.words)?;
    write_size(lines, ".locks", shape.locks)?;
    write_size(lines, ".barriers", shape.barriers)?;
    write_size(lines, ".flags", shape.flags)
}

/// The directive of a size.
fn write_size(lines: &mut Lines, name: &str, n: u32) -> Result<(), NoMemory>
    ensures { OnOk result (lines.new ≡ lines.old ++ line (name.now ∷ decimal n ∷ [])) }
{
    lines.first(name)?;
    lines.number(u64::from(n))?;
    lines.end()
}

/// The directives of the words that do not start as 0.
fn write_initial(lines: &mut Lines, init: &[(u32, u64)]) -> Result<(), NoMemory>
    ensures text { OnOk result (lines.new ≡ lines.old ++ flat_map line (map init_line init.now)) }
    ensures range { OnOk result (All (λ word. word.1 < 2 ^ 64) init.now) }
{
    for word in init {
        write_init(lines, *word)?;
    }
    Ok(())
}

/// The directive of one such word.
fn write_init(lines: &mut Lines, word: (u32, u64)) -> Result<(), NoMemory>
    ensures text { OnOk result (lines.new ≡ lines.old ++ line (init_line word)) }
    ensures range { word.1 < 2 ^ 64 }
{
    lines.first(".init")?;
    lines.number(u64::from(word.0))?;
    lines.number(word.1)?;
    lines.end()
}

/// The instructions, with the labels of the places that are marked.
fn write_code(lines: &mut Lines, code: &[Instr], marks: &[bool]) -> Result<(), NoMemory>
    requires size { length marks.now ≡ length code.now + 1 }
    requires marks { (place : ℕ) → place ≤ length code.now → slice_index_or marks.now place false ≡ is_target code.now place }
    ensures text { OnOk result (lines.new ≡ lines.old ++ flat_map line (code_lines code.now 0 code.now)) }
    ensures range { OnOk result (All IsInRange code.now) }
{
    for (place, instr) in code.iter().enumerate() {
        write_label(lines, place as u64, marks[place])?;
        write_instr(lines, *instr)?;
    }
    write_label(lines, code.len() as u64, marks[code.len()])
}

/// The label of a place, where it is marked.
fn write_label(lines: &mut Lines, place: u64, marked: bool) -> Result<(), NoMemory>
    ensures { OnOk result (lines.new ≡ lines.old ++ flat_map line (if marked then label_line place ∷ [] else [])) }
{
    if !marked {
        return Ok(());
    }
    lines.first("l")?;
    lines.first(Buffer::new().format(place))?;
    lines.first(":")?;
    lines.end()
}
