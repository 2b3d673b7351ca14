ghost use Rattle.std.specs.Prelude.{◌≡◌, ◌<◌, ◌*◌, ◌↔◌, map, All, IsTrue, IsSome, IfSome};
ghost use Rattle.std.specs.List.Sorted.{IsStrictlyIncreasing};
ghost use Rattle.dsm_isa.specs.ProgramText.{sizes_of};
ghost use Rattle.dsm_isa.specs.Rules.{IsInitial, ObjectInside, ObjectsInside};

use crate::code::Code;
use crate::instr::Instr;
use crate::shape::Shape;
use std::marker::Model;

/// Words of the shared memory that do not start as 0: their addresses, each with its value.
#[derive(Drop)]
pub struct Init {
    words: Vec<(u32, u64)>,
}

impl Model for Init {
    ghost use Rattle.std.specs.Prelude.{ℕ, List};

    ghost Value = { List (ℕ × ℕ) };

    ghost view = { λ i. i.words.items };
}

impl Init {
    /// It takes no memory.
    pub fn new(words: Vec<(u32, u64)>) -> Init
        ensures { result ≡ words.items }
    {
        Init { words }
    }

    /// The words, with their memory.
    pub fn into_vec(self) -> Vec<(u32, u64)>
        ensures { result.items ≡ self }
    {
        self.words
    }

    /// The words in order.
    pub fn as_slice(&self) -> &[(u32, u64)]
        ensures { result.now ≡ self.now }
    {
        &self.words
    }
}

/// A program: its shape, the words that do not start as 0, and its code.
#[derive(Drop)]
pub struct Program {
    shape: Shape,
    init: Init,
    code: Code,
}

impl Model for Program {
    ghost use Rattle.dsm_isa.specs.ProgramText.{ProgramText, sizes_of};
    ghost use Rattle.dsm_isa.specs.Rules.{IsInitial, ObjectsInside};

    ghost Value = { ProgramText };

    ghost view = { λ p. record { shape = sizes_of p.shape; init = p.init; code = p.code } };

    ghost invariant = { λ p. IsInitial (sizes_of p.shape) p.init × ObjectsInside (sizes_of p.shape) p.code };
}

impl Program {
    /// The program of these parts, and None exactly where the addresses of `init` do not ascend
    /// strictly, one of them is no word of the memory, a value is 0, or the code names a lock, barrier
    /// or flag that there is not. It takes no memory.
    pub fn new(shape: Shape, init: Vec<(u32, u64)>, code: Code) -> Option<Program>
        ensures some { IsSome result ↔ (IsInitial (sizes_of shape) init.items × ObjectsInside (sizes_of shape) code) }
        ensures value { IfSome result (λ p. p ≡ record { shape = sizes_of shape; init = init.items; code = code }) }
    {
        if keeps_rules(shape, &init, code.as_slice()) {
            let init = Init::new(init);
            Some(Program { shape, init, code })
        } else {
            None
        }
    }

    /// Its sizes and counts.
    pub fn shape(&self) -> Shape
        ensures { sizes_of result ≡ self.now.shape }
    {
        self.shape
    }

    /// The words that do not start as 0, by their addresses.
    pub fn init(&self) -> &[(u32, u64)]
        ensures value { result.now ≡ self.now.init }
        ensures initial { IsInitial self.now.shape result.now }
    {
        self.init.as_slice()
    }

    /// Its code.
    pub fn code(&self) -> &Code
        ensures value { result.now ≡ self.now.code }
        ensures objects { ObjectsInside self.now.shape result.now }
    {
        &self.code
    }
}

// Whether these are the parts of a program.
fn keeps_rules(shape: Shape, init: &[(u32, u64)], code: &[Instr]) -> bool
    ensures { IsTrue result ↔ (IsInitial (sizes_of shape) init.now × ObjectsInside (sizes_of shape) code.now) }
{
    ascends(init) && fits(shape, init) && finds_objects(shape, code)
}

// Whether the addresses ascend strictly.
fn ascends(init: &[(u32, u64)]) -> bool
    ensures { IsTrue result ↔ IsStrictlyIncreasing (map (λ w. w.0) init.now) }
{
    for at in 1..init.len() {
        if init[at].0 <= init[at - 1].0 {
            return false;
        }
    }
    true
}

// Whether the addresses are words of the memory, and no value is 0.
fn fits(shape: Shape, init: &[(u32, u64)]) -> bool
    ensures { IsTrue result ↔ All (λ w. (w.0 < shape.pages * shape.words) × (0 < w.1)) init.now }
{
    let size = shape.pages * shape.words;
    init.iter().all(|w| w.0 < size && 0 < w.1)
}

// Whether all locks, barriers and flags of the code are there.
fn finds_objects(shape: Shape, code: &[Instr]) -> bool
    ensures { IsTrue result ↔ ObjectsInside (sizes_of shape) code.now }
{
    code.iter().all(|instr| finds_object(shape, *instr))
}

// Whether the lock, barrier or flag of the instruction is there.
fn finds_object(shape: Shape, instr: Instr) -> bool
    ensures { IsTrue result ↔ ObjectInside (sizes_of shape) instr }
{
    match instr {
        Instr::Lock { l } => l < shape.locks,
        Instr::Unlock { l } => l < shape.locks,
        Instr::Bar { b } => b < shape.barriers,
        Instr::Set { f } => f < shape.flags,
        Instr::Wait { f, .. } => f < shape.flags,
        Instr::Waitr { f, .. } => f < shape.flags,
        _ => true,
    }
}
