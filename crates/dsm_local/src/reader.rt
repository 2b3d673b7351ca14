ghost use Rattle.std.specs.Prelude.{◌≡◌, ◌+◌, ◌<◌, ◌^◌, slice_index, IfSome, IfNone, if◌then◌else◌};
ghost use Rattle.dsm_local.specs.Actions.{open_pass, divide, address, word_at, give_back, IsArithmetic, action_of};
ghost use Rattle.dsm_local.specs.Readers.{new_reader, given, jumped, moved, opened, closed, next_action, GoesOn, IsInside};

use crate::action::Action;
use crate::end::Trap;
use crate::setting::Setting;
use dsm_isa::code::Code;
use dsm_isa::instr::Instr;
use dsm_isa::reg::{REGISTERS, Reg};

/// The most locks of a program.
pub const LOCKS: usize = 64;

/// A sequential reader of a code, which stands before an instruction.
#[derive(Clone, Copy, Debug, PartialEq, Eq)]
pub struct Reader {
    /// What its registers hold.
    pub registers: [u64; REGISTERS],
    /// Of each lock the count of its open pass.
    pub passes: [Option<u64>; LOCKS],
    /// The place of the instruction.
    pub place: u32,
    /// How many instructions it has done.
    pub done: u64,
}

impl Reader {
    /// A reader at the start of the code.
    pub fn new() -> Reader
        ensures { result ≡ new_reader }
    {
        Reader {
            registers: [0; REGISTERS],
            passes: [None; LOCKS],
            place: 0,
            done: 0,
        }
    }

    /// What register `a` holds.
    fn value(&self, a: Reg) -> u64
        ensures { result ≡ slice_index self.now.registers a }
    {
        self.registers[a.index()]
    }

    /// The count of its open pass of lock `l`.
    fn open_pass(&self, l: u32) -> Option<u64>
        ensures { result ≡ open_pass self.now l }
    {
        match self.passes.get(l as usize) {
            Some(k) => *k,
            None => None,
        }
    }

    /// An instruction that gives register `d` the value `v` is done.
    pub fn give(&mut self, d: Reg, v: u64)
        requires place { self.old.place + 1 < 2 ^ 32 }
        requires done { self.old.done + 1 < 2 ^ 64 }
        ensures { self.new ≡ given self.old d v }
    {
        self.registers[d.index()] = v;
        self.move_on();
    }

    /// An instruction that leaves the registers alone is done.
    pub fn move_on(&mut self)
        requires place { self.old.place + 1 < 2 ^ 32 }
        requires done { self.old.done + 1 < 2 ^ 64 }
        ensures { self.new ≡ moved self.old }
    {
        self.jump(self.place + 1);
    }

    /// A jump to place `to` is done.
    pub fn jump(&mut self, to: u32)
        requires { self.old.done + 1 < 2 ^ 64 }
        ensures { self.new ≡ jumped self.old to }
    {
        self.place = to;
        self.done += 1;
    }

    /// Lock `l` was passed with count `c`.
    pub fn open(&mut self, l: u32, c: u64)
        ensures { self.new ≡ opened self.old l c }
    {
        if (l as usize) < LOCKS {
            self.passes[l as usize] = Some(c);
        }
    }

    /// Lock `l` was given back.
    pub fn close(&mut self, l: u32)
        ensures { self.new ≡ closed self.old l }
    {
        if (l as usize) < LOCKS {
            self.passes[l as usize] = None;
        }
    }

    /// What the reader does next.
    #[inline(always)]
    pub fn next(&self, code: &Code, setting: Setting) -> Action
        ensures value { result ≡ next_action code.now setting self.now }
        ensures place { GoesOn result → self.now.place + 1 < 2 ^ 32 }
        ensures done { GoesOn result → self.now.done + 1 < 2 ^ 64 }
        ensures inside { IsInside setting.size result }
    {
        if self.done >= setting.turns {
            return Action::Spend;
        }
        match code.get(self.place) {
            Some(instr) => self.action_of(setting, instr),
            None => Action::Arrive,
        }
    }

    /// What an instruction does.
    #[inline(always)]
    fn action_of(&self, setting: Setting, instr: Instr) -> Action
        requires { self.now.place + 1 < 2 ^ 32 }
        ensures { result ≡ action_of setting self.now (Some instr) }
    {
        match instr {
            Instr::Ld { d, a, k } => match self.word(setting, a, k) {
                Ok(w) => Action::LoadWord { d, w },
                Err(w) => address_trap(w),
            },
            Instr::St { s, a, k } => match self.word(setting, a, k) {
                Ok(w) => Action::StoreWord {
                    w,
                    v: self.value(s),
                },
                Err(w) => address_trap(w),
            },
            Instr::Jmp { to } => Action::Jump { to },
            Instr::Beq { a, b, to } => self.branch(self.value(a) == self.value(b), to),
            Instr::Bne { a, b, to } => self.branch(self.value(a) != self.value(b), to),
            Instr::Blt { a, b, to } => self.branch(self.value(a) < self.value(b), to),
            Instr::Bge { a, b, to } => self.branch(self.value(a) >= self.value(b), to),
            Instr::Lock { l } => Action::TakeLock { l },
            Instr::Unlock { l } => self.give_back(l),
            Instr::Bar { b } => Action::Meet { b },
            Instr::Set { f } => Action::RaiseFlag { f },
            Instr::Wait { f, k } => Action::WaitFlag { f, need: k },
            Instr::Waitr { f, a } => Action::WaitFlag {
                f,
                need: self.value(a),
            },
            Instr::Out { s } => Action::Print { v: self.value(s) },
            Instr::Halt => Action::Arrive,
            _ => self.computed(setting, instr),
        }
    }

    /// Gives lock `l` back, where it has an open pass of it.
    fn give_back(&self, l: u32) -> Action
        ensures { result ≡ give_back l (open_pass self.now l) }
    {
        match self.open_pass(l) {
            Some(k) => Action::GiveLock { l, k },
            None => Action::Trap {
                kind: Trap::NotHeld { l },
            },
        }
    }

    /// What an instruction of arithmetic does.
    #[inline(always)]
    fn computed(&self, setting: Setting, instr: Instr) -> Action
        requires { IsArithmetic instr }
        ensures { result ≡ action_of setting self.now (Some instr) }
    {
        match instr {
            Instr::Li { d, k } => set(d, k),
            Instr::Mov { d, a } => set(d, self.value(a)),
            Instr::Me { d } => set(d, u64::from(setting.p)),
            Instr::Procs { d } => set(d, u64::from(setting.procs)),
            Instr::Add { d, a, b } => set(d, self.value(a).wrapping_add(self.value(b))),
            Instr::Sub { d, a, b } => set(d, self.value(a).wrapping_sub(self.value(b))),
            Instr::Mul { d, a, b } => set(d, self.value(a).wrapping_mul(self.value(b))),
            Instr::Div { d, a, b } => set_or_trap(d, self.value(a).checked_div(self.value(b))),
            Instr::Rem { d, a, b } => set_or_trap(d, self.value(a).checked_rem(self.value(b))),
            Instr::And { d, a, b } => set(d, self.value(a) & self.value(b)),
            Instr::Or { d, a, b } => set(d, self.value(a) | self.value(b)),
            Instr::Xor { d, a, b } => set(d, self.value(a) ^ self.value(b)),
            Instr::Shl { d, a, b } => set(d, self.value(a) << (self.value(b) % 64)),
            Instr::Shr { d, a, b } => set(d, self.value(a) >> (self.value(b) % 64)),
            Instr::Slt { d, a, b } => set(d, u64::from(self.value(a) < self.value(b))),
            Instr::Seq { d, a, b } => set(d, u64::from(self.value(a) == self.value(b))),
            Instr::Addi { d, a, k } => set(d, self.value(a).wrapping_add(k)),
            Instr::Subi { d, a, k } => set(d, self.value(a).wrapping_sub(k)),
            Instr::Muli { d, a, k } => set(d, self.value(a).wrapping_mul(k)),
            _ => unreachable!(),
        }
    }

    /// Goes to `to` where the branch is taken, and else to the next instruction.
    fn branch(&self, taken: bool, to: u32) -> Action
        requires { self.now.place + 1 < 2 ^ 32 }
        ensures { result ≡ Action.Jump (if taken then to else self.now.place + 1) }
    {
        Action::Jump {
            to: if taken { to } else { self.place + 1 },
        }
    }

    /// The word at the address `a + k`, or the address, where there is no such word.
    fn word(&self, setting: Setting, a: Reg, k: u64) -> Result<u32, u64>
        ensures { result ≡ word_at setting.size (address self.now a k) }
    {
        let address = self.value(a).wrapping_add(k);
        if address < u64::from(setting.size) {
            Ok(address as u32)
        } else {
            Err(address)
        }
    }
}

fn set(d: Reg, v: u64) -> Action
    ensures { result ≡ Action.Set d v }
{
    Action::Set { d, v }
}

/// Gives a register a quotient or a rest; there is none by 0.
fn set_or_trap(d: Reg, v: Option<u64>) -> Action
    ensures some { IfSome v (λ x. result ≡ Action.Set d x) }
    ensures none { IfNone v (result ≡ Action.Trap Trap.DivideByZero) }
{
    match v {
        Some(v) => set(d, v),
        None => Action::Trap {
            kind: Trap::DivideByZero,
        },
    }
}

/// Ends a processor whose load or store names no word.
fn address_trap(w: u64) -> Action
    ensures { result ≡ Action.Trap (Trap.Address w) }
{
    Action::Trap {
        kind: Trap::Address { w },
    }
}
