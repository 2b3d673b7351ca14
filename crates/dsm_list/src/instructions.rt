ghost use Rattle.std.specs.Prelude.{◌≡◌, ◌<◌, ◌++◌, [], ◌∷◌, codes, map, OnOk};
ghost use Rattle.dsm_list.specs.Lines.{joined, line};
ghost use Rattle.dsm_isa.specs.Operands.{Register, Number, Target, AreOperands, registers, branch, IsInRange};
ghost use Rattle.dsm_list.specs.Spelling.{operand_word, spelling};

use crate::lines::Lines;
use dsm_entry::entry::NoMemory;
use dsm_isa::instr::Instr;
use dsm_isa::reg::Reg;

/// The line of an instruction.
pub(crate) fn write_instr(lines: &mut Lines, instr: Instr) -> Result<(), NoMemory>
    ensures text { OnOk result (lines.new ≡ lines.old ++ line (spelling instr)) }
    ensures range { OnOk result (IsInRange instr) }
{
    write_spelling(lines, instr)?;
    lines.end()
}

/// The words of an instruction.
fn write_spelling(lines: &mut Lines, instr: Instr) -> Result<(), NoMemory>
    ensures text { OnOk result (lines.new ≡ lines.old ++ joined (spelling instr)) }
    ensures range { OnOk result (IsInRange instr) }
{
    match instr {
        Instr::Li { d, k } => write_li(lines, d, k),
        Instr::Mov { d, a } => write_mov(lines, d, a),
        Instr::Me { d } => write_one(lines, "me", d),
        Instr::Procs { d } => write_one(lines, "procs", d),
        Instr::Add { d, a, b } => write_three(lines, "add", d, a, b),
        Instr::Sub { d, a, b } => write_three(lines, "sub", d, a, b),
        Instr::Mul { d, a, b } => write_three(lines, "mul", d, a, b),
        Instr::Div { d, a, b } => write_three(lines, "div", d, a, b),
        Instr::Rem { d, a, b } => write_three(lines, "rem", d, a, b),
        Instr::And { d, a, b } => write_three(lines, "and", d, a, b),
        Instr::Or { d, a, b } => write_three(lines, "or", d, a, b),
        Instr::Xor { d, a, b } => write_three(lines, "xor", d, a, b),
        Instr::Shl { d, a, b } => write_three(lines, "shl", d, a, b),
        Instr::Shr { d, a, b } => write_three(lines, "shr", d, a, b),
        Instr::Slt { d, a, b } => write_three(lines, "slt", d, a, b),
        Instr::Seq { d, a, b } => write_three(lines, "seq", d, a, b),
        Instr::Addi { d, a, k } => write_number(lines, "addi", d, a, k),
        Instr::Subi { d, a, k } => write_number(lines, "subi", d, a, k),
        Instr::Muli { d, a, k } => write_number(lines, "muli", d, a, k),
        Instr::Ld { d, a, k } => write_number(lines, "ld", d, a, k),
        Instr::St { s, a, k } => write_number(lines, "st", s, a, k),
        Instr::Jmp { to } => write_jump(lines, to),
        Instr::Beq { a, b, to } => write_branch(lines, "beq", a, b, to),
        Instr::Bne { a, b, to } => write_branch(lines, "bne", a, b, to),
        Instr::Blt { a, b, to } => write_branch(lines, "blt", a, b, to),
        Instr::Bge { a, b, to } => write_branch(lines, "bge", a, b, to),
        Instr::Lock { l } => write_object(lines, "lock", l),
        Instr::Unlock { l } => write_object(lines, "unlock", l),
        Instr::Bar { b } => write_object(lines, "bar", b),
        Instr::Set { f } => write_object(lines, "set", f),
        Instr::Wait { f, k } => write_wait(lines, f, k),
        Instr::Waitr { f, a } => write_waitr(lines, f, a),
        Instr::Out { s } => write_one(lines, "out", s),
        Instr::Halt => lines.first("halt"),
    }
}

/// A name and one register.
fn write_one(lines: &mut Lines, name: &str, d: Reg) -> Result<(), NoMemory>
    ensures text { OnOk result (lines.new ≡ lines.old ++ joined (name.now ∷ map operand_word (Register d ∷ []))) }
    ensures range { OnOk result (AreOperands (Register d ∷ [])) }
{
    lines.first(name)?;
    write_register(lines, d)
}

/// A name and three registers.
fn write_three(lines: &mut Lines, name: &str, d: Reg, a: Reg, b: Reg) -> Result<(), NoMemory>
    ensures text { OnOk result (lines.new ≡ lines.old ++ joined (name.now ∷ map operand_word (registers d a b))) }
    ensures range { OnOk result (AreOperands (registers d a b)) }
{
    lines.first(name)?;
    write_register(lines, d)?;
    write_register(lines, a)?;
    write_register(lines, b)
}

/// A name, two registers and a number.
fn write_number(lines: &mut Lines, name: &str, d: Reg, a: Reg, k: u64) -> Result<(), NoMemory>
    ensures text { OnOk result (lines.new ≡ lines.old ++ joined (name.now ∷ map operand_word (Register d ∷ Register a ∷ Number k ∷ []))) }
    ensures range { OnOk result (AreOperands (Register d ∷ Register a ∷ Number k ∷ [])) }
{
    lines.first(name)?;
    write_register(lines, d)?;
    write_register(lines, a)?;
    lines.number(k)
}

/// A name, two registers and a label.
fn write_branch(lines: &mut Lines, name: &str, a: Reg, b: Reg, to: u32) -> Result<(), NoMemory>
    ensures text { OnOk result (lines.new ≡ lines.old ++ joined (name.now ∷ map operand_word (branch a b to))) }
    ensures range { OnOk result (AreOperands (branch a b to)) }
{
    lines.first(name)?;
    write_register(lines, a)?;
    write_register(lines, b)?;
    write_target(lines, to)
}

/// A name and the number of a lock, a barrier or a flag.
fn write_object(lines: &mut Lines, name: &str, n: u32) -> Result<(), NoMemory>
    ensures text { OnOk result (lines.new ≡ lines.old ++ joined (name.now ∷ map operand_word (Number n ∷ []))) }
    ensures range { OnOk result (AreOperands (Number n ∷ [])) }
{
    lines.first(name)?;
    lines.number(u64::from(n))
}

fn write_li(lines: &mut Lines, d: Reg, k: u64) -> Result<(), NoMemory>
    ensures text { OnOk result (lines.new ≡ lines.old ++ joined (codes "li" ∷ map operand_word (Register d ∷ Number k ∷ []))) }
    ensures range { OnOk result (AreOperands (Register d ∷ Number k ∷ [])) }
{
    write_one(lines, "li", d)?;
    lines.number(k)
}

fn write_mov(lines: &mut Lines, d: Reg, a: Reg) -> Result<(), NoMemory>
    ensures text { OnOk result (lines.new ≡ lines.old ++ joined (codes "mov" ∷ map operand_word (Register d ∷ Register a ∷ []))) }
    ensures range { OnOk result (AreOperands (Register d ∷ Register a ∷ [])) }
{
    write_one(lines, "mov", d)?;
    write_register(lines, a)
}

fn write_jump(lines: &mut Lines, to: u32) -> Result<(), NoMemory>
    ensures text { OnOk result (lines.new ≡ lines.old ++ joined (codes "jmp" ∷ map operand_word (Target to ∷ []))) }
    ensures range { OnOk result (AreOperands (Target to ∷ [])) }
{
    lines.first("jmp")?;
    write_target(lines, to)
}

fn write_wait(lines: &mut Lines, f: u32, k: u64) -> Result<(), NoMemory>
    ensures text { OnOk result (lines.new ≡ lines.old ++ joined (codes "wait" ∷ map operand_word (Number f ∷ Number k ∷ []))) }
    ensures range { OnOk result (AreOperands (Number f ∷ Number k ∷ [])) }
{
    write_object(lines, "wait", f)?;
    lines.number(k)
}

fn write_waitr(lines: &mut Lines, f: u32, a: Reg) -> Result<(), NoMemory>
    ensures text { OnOk result (lines.new ≡ lines.old ++ joined (codes "waitr" ∷ map operand_word (Number f ∷ Register a ∷ []))) }
    ensures range { OnOk result (AreOperands (Number f ∷ Register a ∷ [])) }
{
    write_object(lines, "waitr", f)?;
    write_register(lines, a)
}

/// A register, as a further word.
fn write_register(lines: &mut Lines, register: Reg) -> Result<(), NoMemory>
    ensures text { OnOk result (lines.new ≡ lines.old ++ 32 ∷ operand_word (Register register)) }
    ensures range { register < 16 }
{
    lines.lettered(b'r', register.index() as u64)
}

/// The label of a place to jump to, as a further word.
fn write_target(lines: &mut Lines, to: u32) -> Result<(), NoMemory>
    ensures { OnOk result (lines.new ≡ lines.old ++ 32 ∷ operand_word (Target to)) }
{
    lines.lettered(b'l', u64::from(to))
}
