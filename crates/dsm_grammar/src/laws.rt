ghost use Rattle.std.specs.Prelude.{◌≡◌, ◌<◌, ◌≤◌, length, ◌++◌, [], ◌∷◌, codes, replicate, Some, None};
ghost use Rattle.dsm_isa.specs.declared.instr.Instr.TheVariants.{Li, Jmp, Halt};
ghost use Rattle.dsm_isa.specs.Jumps.{JumpsInside};
ghost use Rattle.dsm_isa.specs.Limits.{IsWithinLimits};
ghost use Rattle.dsm_isa.specs.Rules.{IsInitial, ObjectsInside};
ghost use Rattle.dsm_grammar.specs.Laws.{OfEachProgram};
ghost use Rattle.dsm_grammar.specs.Faults.{first_fault_of};
ghost use Rattle.dsm_grammar.specs.Grammar.{program_of};
ghost use Rattle.dsm_grammar.specs.declared.fault.AsmKind.TheVariants.{NotAscii, LongLine, DoubleLabel, UnknownWord, DirectiveLate, BadOperand, BadRegister, BadNumber, NoLabel, Limit, NoCode};
ghost use Rattle.dsm_grammar.specs.declared.fault.Bound.TheVariants.{Pages, Words, Address, Lock as LockNumber};

/// What is wrong with some texts. Nothing runs here: the definitions are computed by the checker.
pub fn refused_examples()
    ensures operand_wanted { first_fault_of (codes "li r1") ≡ Some (1, BadOperand) }
    ensures register_16 { first_fault_of (codes "li r16 1") ≡ Some (1, BadRegister) }
    ensures register_in_capitals { first_fault_of (codes "li R1 1") ≡ Some (1, BadRegister) }
    ensures leading_zero { first_fault_of (codes "li r1 01") ≡ Some (1, BadNumber) }
    ensures number_too_large { first_fault_of (codes "li r1 18446744073709551616") ≡ Some (1, BadNumber) }
    ensures number_with_sign { first_fault_of (codes "li r1 +1") ≡ Some (1, BadNumber) }
    ensures unknown { first_fault_of (codes "foo") ≡ Some (1, UnknownWord) }
    ensures colon_inside { first_fault_of (codes "a:b halt") ≡ Some (1, UnknownWord) }
    ensures label_of_33_bytes { first_fault_of (replicate 33 97 ++ codes ": halt") ≡ Some (1, UnknownWord) }
    ensures no_label { first_fault_of (codes "jmp x") ≡ Some (1, NoLabel) }
    ensures first_of_two_lines { first_fault_of (codes "jmp x" ++ 10 ∷ codes "foo") ≡ Some (1, NoLabel) }
    ensures double_label { first_fault_of (codes "a: halt" ++ 10 ∷ codes "a: halt") ≡ Some (2, DoubleLabel) }
    ensures late_behind_code { first_fault_of (codes "halt" ++ 10 ∷ codes ".pages 2") ≡ Some (2, DirectiveLate) }
    ensures late_behind_init { first_fault_of (codes ".init 0 1" ++ 10 ∷ codes ".pages 2" ++ 10 ∷ codes "halt") ≡ Some (2, DirectiveLate) }
    ensures late_behind_its_label { first_fault_of (codes "a: .pages 2") ≡ Some (1, DirectiveLate) }
    ensures label_of_a_faulty_line { first_fault_of (codes "jmp x" ++ 10 ∷ codes "x: li r1") ≡ Some (2, BadOperand) }
    ensures number_of_operands_first { first_fault_of (codes "li r16 01 1") ≡ Some (1, BadOperand) }
    ensures leftmost_operand { first_fault_of (codes "li r16 01") ≡ Some (1, BadRegister) }
    ensures pages { first_fault_of (codes ".pages 257" ++ 10 ∷ codes "halt") ≡ Some (1, Limit Pages) }
    ensures words { first_fault_of (codes ".words 0" ++ 10 ∷ codes "halt") ≡ Some (1, Limit Words) }
    ensures address { first_fault_of (codes ".init 64 1" ++ 10 ∷ codes "halt") ≡ Some (1, Limit Address) }
    ensures lock { first_fault_of (codes "lock 0") ≡ Some (1, Limit LockNumber) }
    ensures not_ascii { first_fault_of (128 ∷ []) ≡ Some (1, NotAscii) }
    ensures zero_byte { first_fault_of (0 ∷ codes "halt") ≡ Some (1, NotAscii) }
    ensures long_line { first_fault_of (replicate 201 97) ≡ Some (1, LongLine) }
    ensures label_alone { first_fault_of (codes "x:") ≡ Some (1, NoCode) }
    ensures empty { first_fault_of [] ≡ Some (1, NoCode) }
{}

/// The programs of some texts.
pub fn accepted_examples()
    ensures register_as_label { first_fault_of (codes "r1: halt" ++ 10 ∷ codes "jmp r1") ≡ None }
    ensures jump_to_it { (program_of (codes "r1: halt" ++ 10 ∷ codes "jmp r1")).code ≡ Halt ∷ Jmp 0 ∷ [] }
    ensures carriage_return { first_fault_of (codes "halt" ++ 13 ∷ []) ≡ None }
    ensures comment { first_fault_of (codes "halt ;" ++ 0 ∷ []) ≡ None }
    ensures label_for_the_length { (program_of (codes "jmp e" ++ 10 ∷ codes "halt" ++ 10 ∷ codes "e:")).code ≡ Jmp 2 ∷ Halt ∷ [] }
    ensures later_directive { (program_of (codes ".init 9 5" ++ 10 ∷ codes ".init 3 1" ++ 10 ∷ codes ".init 9 7" ++ 10 ∷ codes "halt")).init ≡ (3, 1) ∷ (9, 7) ∷ [] }
    ensures zero_not_kept { (program_of (codes ".init 9 5" ++ 10 ∷ codes ".init 9 0" ++ 10 ∷ codes "halt")).init ≡ [] }
    ensures defaults { (program_of (codes "halt")).shape ≡ record { pages = 1; words = 64; locks = 0; barriers = 0; flags = 0 } }
{}

/// The program of a text without a fault keeps what every program keeps.
pub fn program_law()
    ensures limits { OfEachProgram (λ p. let s = p.shape in IsWithinLimits s.pages s.words s.locks s.barriers s.flags) }
    ensures initial { OfEachProgram (λ p. IsInitial p.shape p.init) }
    ensures some { OfEachProgram (λ p. 0 < length p.code) }
    ensures most { OfEachProgram (λ p. length p.code ≤ 4096) }
    ensures jumps { OfEachProgram (λ p. JumpsInside p.code) }
    ensures objects { OfEachProgram (λ p. ObjectsInside p.shape p.code) }
{}
