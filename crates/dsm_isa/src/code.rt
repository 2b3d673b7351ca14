ghost use Rattle.std.specs.Prelude.{◌≡◌, ℕ, ◌<◌, ◌≤◌, ◌↔◌, [], length, slice_get, IfOk, IfSome, IsSome, IsSomeAnd, IsTrue, MatchOption};
ghost use Rattle.std.specs.Option.{option_and_then};
ghost use Rattle.dsm_isa.specs.Jumps.{target_of, JumpsInside, IsFirstBadJump};
ghost use Rattle.dsm_isa.specs.declared.code.TheConstants.{MOST};

use crate::instr::Instr;
use std::marker::Model;
use thiserror::Error;

/// The most instructions that a code has.
pub const MOST: usize = 4096;

/// The instructions of a program, 1 to 4,096. The place that equals their number stands for `halt`, and
/// no jump leads past it.
#[derive(Drop)]
pub struct Code {
    list: Vec<Instr>,
}

impl Model for Code {
    ghost use Rattle.std.specs.Prelude.{◌<◌, ◌≤◌, List, vec_len};
    ghost use Rattle.dsm_isa.specs.declared.instr.Instr.{Instr};
    ghost use Rattle.dsm_isa.specs.Jumps.{JumpsInside};

    ghost Value = { List Instr };

    ghost view = { λ c. c.list.items };

    ghost invariant = { λ c. (0 < vec_len c.list) × (vec_len c.list ≤ 4096) × JumpsInside c.list.items };
}

/// Why a list of instructions is no code.
#[derive(Clone, Copy, Debug, PartialEq, Eq, Error)]
pub enum CodeFault {
    #[error("there is no instruction")]
    Empty,
    #[error("there are more than 4096 instructions")]
    TooLong,
    /// The first place, from 0, whose jump leads past the end of the code.
    #[error("the jump at place {0} leads past the end of the code")]
    BadJump(u32),
}

impl Code {
    /// The code of these instructions. A refused list is dropped. It takes no memory.
    pub fn new(list: Vec<Instr>) -> Result<Code, CodeFault>
        ensures code { IfOk result (λ c. c ≡ list.items) }
        ensures jumps { IfOk result (λ c. JumpsInside c) }
        ensures empty { (result ≡ Err CodeFault.Empty) ↔ (list.items ≡ []) }
        ensures too_long { (result ≡ Err CodeFault.TooLong) ↔ (MOST < length list.items) }
        ensures bad_jump { (at : ℕ) → (result ≡ Err (CodeFault.BadJump at)) ↔ ((length list.items ≤ MOST) × IsFirstBadJump list.items at) }
    {
        if list.is_empty() {
            return Err(CodeFault::Empty);
        }
        if list.len() > MOST {
            return Err(CodeFault::TooLong);
        }
        if let Some(at) = first_bad_jump(&list) {
            return Err(CodeFault::BadJump(at));
        }
        Ok(Code { list })
    }

    /// The instruction at place `at`, from 0, and None exactly where `at` is at least the length.
    pub fn get(&self, at: u32) -> Option<Instr>
        ensures value { result ≡ slice_get self.now at }
        ensures place { IsSome result → at < MOST }
        ensures jump { IfSome (option_and_then target_of result) (λ to. to ≤ length self.now) }
    {
        self.list.get(at as usize).copied()
    }

    /// How many instructions there are, 1 to 4,096.
    pub fn len(&self) -> u32
        ensures value { result ≡ length self.now }
        ensures least { 0 < result }
        ensures most { result ≤ 4096 }
    {
        self.list.len() as u32
    }

    /// The instructions in order.
    pub fn as_slice(&self) -> &[Instr]
        ensures value { result.now ≡ self.now }
        ensures jumps { JumpsInside result.now }
    {
        &self.list
    }
}

// The first place whose jump leads past the end.
fn first_bad_jump(list: &[Instr]) -> Option<u32>
    requires { length list.now ≤ MOST }
    ensures { MatchOption result (JumpsInside list.now) (λ at. IsFirstBadJump list.now at) }
{
    for (at, instr) in list.iter().enumerate() {
        if jumps_past(*instr, list.len()) {
            return Some(at as u32);
        }
    }
    None
}

// Whether the instruction jumps past place `end`.
fn jumps_past(instr: Instr, end: usize) -> bool
    ensures { IsTrue result ↔ IsSomeAnd (target_of instr) (λ to. end < to) }
{
    match instr.target() {
        Some(to) => end < to as usize,
        None => false,
    }
}
