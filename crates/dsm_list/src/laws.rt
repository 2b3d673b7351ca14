ghost use Rattle.std.specs.Prelude.{◌≡◌, None};
ghost use Rattle.dsm_isa.specs.ProgramText.{ProgramText};
ghost use Rattle.dsm_grammar.specs.Faults.{first_fault_of};
ghost use Rattle.dsm_grammar.specs.Grammar.{program_of};
ghost use Rattle.dsm_list.specs.Canonical.{canonical};
ghost use Rattle.dsm_isa.specs.Rules.{IsProgram};

/// The canonical text of each program, however long it is, is in the grammar and stands for that program.
pub fn list_law()
    ensures accepted { (p : ProgramText) → IsProgram p → first_fault_of (canonical p) ≡ None }
    ensures same { (p : ProgramText) → IsProgram p → program_of (canonical p) ≡ p }
{}
