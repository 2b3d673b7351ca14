ghost use Rattle.std.specs.Prelude.{◌≡◌, ◌+◌, ◌<◌, ◌≤◌, ℕ, false, length, slice_index_or, IfOk};
ghost use Rattle.dsm_list.specs.Canonical.{is_target};

use dsm_entry::entry::NoMemory;
use dsm_isa::code::Code;
use std::alloc::Global;

/// For each place of the code, and for its length, whether some instruction jumps there.
pub(crate) fn targets(alloc: Global, code: &Code) -> Result<Vec<bool>, NoMemory>
    ensures some { 0 < length code.now }
    ensures most { length code.now ≤ 4096 }
    ensures size { IfOk result (λ marks. length marks.items ≡ length code.now + 1) }
    ensures marks { IfOk result (λ marks. (place : ℕ) → place ≤ length code.now → slice_index_or marks.items place false ≡ is_target code.now place) }
{
    let mut marks = vec![in alloc; false; code.len() as usize + 1]?;
    for instr in code.as_slice() {
        if let Some(to) = instr.target() {
            marks[to as usize] = true;
        }
    }
    Ok(marks)
}
