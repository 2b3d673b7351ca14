ghost use Rattle.std.specs.Prelude.{◌≡◌};

use crate::reg::Reg;

/// An instruction. `d`, `a`, `b` and `s` name registers, `k` is a number, `l`, `b` and `f` are the
/// numbers of a lock, a barrier and a flag, and `to` is a place in the code. Arithmetic is modulo 2^64,
/// and comparisons are of unsigned numbers.
#[derive(Clone, Copy, Debug, PartialEq, Eq)]
pub enum Instr {
    /// `d := k`
    Li { d: Reg, k: u64 },
    /// `d := a`
    Mov { d: Reg, a: Reg },
    /// `d :=` the number of this processor
    Me { d: Reg },
    /// `d :=` the number of processors
    Procs { d: Reg },
    /// `d := a + b`
    Add { d: Reg, a: Reg, b: Reg },
    /// `d := a - b`
    Sub { d: Reg, a: Reg, b: Reg },
    /// `d := a * b`
    Mul { d: Reg, a: Reg, b: Reg },
    /// `d :=` the quotient of `a` and `b`, which is not to be 0
    Div { d: Reg, a: Reg, b: Reg },
    /// `d :=` the rest of `a` and `b`, which is not to be 0
    Rem { d: Reg, a: Reg, b: Reg },
    /// `d := a` and `b`, bit by bit
    And { d: Reg, a: Reg, b: Reg },
    /// `d := a` or `b`, bit by bit
    Or { d: Reg, a: Reg, b: Reg },
    /// `d :=` either `a` or `b`, bit by bit
    Xor { d: Reg, a: Reg, b: Reg },
    /// `d := a`, shifted left by `b` modulo 64
    Shl { d: Reg, a: Reg, b: Reg },
    /// `d := a`, shifted right by `b` modulo 64
    Shr { d: Reg, a: Reg, b: Reg },
    /// `d := 1` where `a < b`, else 0
    Slt { d: Reg, a: Reg, b: Reg },
    /// `d := 1` where `a = b`, else 0
    Seq { d: Reg, a: Reg, b: Reg },
    /// `d := a + k`
    Addi { d: Reg, a: Reg, k: u64 },
    /// `d := a - k`
    Subi { d: Reg, a: Reg, k: u64 },
    /// `d := a * k`
    Muli { d: Reg, a: Reg, k: u64 },
    /// `d :=` the word at `a + k`
    Ld { d: Reg, a: Reg, k: u64 },
    /// The word at `a + k := s`
    St { s: Reg, a: Reg, k: u64 },
    /// Goes to `to`.
    Jmp { to: u32 },
    /// Goes to `to` where `a = b`.
    Beq { a: Reg, b: Reg, to: u32 },
    /// Goes to `to` where `a` and `b` differ.
    Bne { a: Reg, b: Reg, to: u32 },
    /// Goes to `to` where `a < b`.
    Blt { a: Reg, b: Reg, to: u32 },
    /// Goes to `to` where `a >= b`.
    Bge { a: Reg, b: Reg, to: u32 },
    /// Takes lock `l`.
    Lock { l: u32 },
    /// Gives lock `l` back.
    Unlock { l: u32 },
    /// Arrives at barrier `b`, and waits for all.
    Bar { b: u32 },
    /// Sets flag `f` once more.
    Set { f: u32 },
    /// Waits until flag `f` was set at least `k` times.
    Wait { f: u32, k: u64 },
    /// Waits until flag `f` was set at least `a` times.
    Waitr { f: u32, a: Reg },
    /// Prints `s`.
    Out { s: Reg },
    /// Ends the program.
    Halt,
}

impl Instr {
    ghost use Rattle.dsm_isa.specs.Jumps.{target_of};

    /// The place that it may jump to.
    pub fn target(self) -> Option<u32>
        ensures { result ≡ target_of self }
    {
        match self {
            Instr::Jmp { to } => Some(to),
            Instr::Beq { to, .. } => Some(to),
            Instr::Bne { to, .. } => Some(to),
            Instr::Blt { to, .. } => Some(to),
            Instr::Bge { to, .. } => Some(to),
            _ => None,
        }
    }
}
