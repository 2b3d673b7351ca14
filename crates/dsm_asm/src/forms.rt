ghost use Rattle.std.specs.Prelude.{◌≡◌};
ghost use Rattle.std.specs.Option.{option_map};
ghost use Rattle.dsm_isa.specs.ProgramText.{Sizes};
ghost use Rattle.dsm_grammar.specs.Statements.{named, instructions};
ghost use Rattle.dsm_asm.specs.Forms.{statement_in, with_register, with_registers, with_number, with_label};

use dsm_isa::instr::Instr;
use dsm_isa::reg::Reg;

/// An instruction as its name tells it: what its operands are, and what it does with them.
#[derive(Clone, Copy, Debug, PartialEq, Eq)]
pub enum Form {
    Halt,
    Li,
    Mov,
    Jmp,
    /// On a register.
    Register(OnRegister),
    /// On three registers.
    Arithmetic(OnRegisters),
    /// On two registers and a number.
    Number(OnNumber),
    /// On two registers and a label.
    Branch(OnLabel),
    /// On a lock, a barrier or a flag.
    Object(OnObject),
}

#[derive(Clone, Copy, Debug, PartialEq, Eq)]
pub enum OnRegister {
    Me,
    Procs,
    Out,
}

#[derive(Clone, Copy, Debug, PartialEq, Eq)]
pub enum OnRegisters {
    Add,
    Sub,
    Mul,
    Div,
    Rem,
    And,
    Or,
    Xor,
    Shl,
    Shr,
    Slt,
    Seq,
}

#[derive(Clone, Copy, Debug, PartialEq, Eq)]
pub enum OnNumber {
    Addi,
    Subi,
    Muli,
    Ld,
    St,
}

#[derive(Clone, Copy, Debug, PartialEq, Eq)]
pub enum OnLabel {
    Beq,
    Bne,
    Blt,
    Bge,
}

#[derive(Clone, Copy, Debug, PartialEq, Eq)]
pub enum OnObject {
    Lock,
    Unlock,
    Bar,
    Set,
    Wait,
    Waitr,
}

/// The form of the instruction of this name, where there is one.
pub fn form_of(name: &[u8]) -> Option<Form>
    ensures { (there : Sizes) → named name.now (instructions there) ≡ option_map (statement_in there) result }
{
    match name {
        b"li" => Some(Form::Li),
        b"mov" => Some(Form::Mov),
        b"me" => Some(Form::Register(OnRegister::Me)),
        b"procs" => Some(Form::Register(OnRegister::Procs)),
        b"add" => Some(Form::Arithmetic(OnRegisters::Add)),
        b"sub" => Some(Form::Arithmetic(OnRegisters::Sub)),
        b"mul" => Some(Form::Arithmetic(OnRegisters::Mul)),
        b"div" => Some(Form::Arithmetic(OnRegisters::Div)),
        b"rem" => Some(Form::Arithmetic(OnRegisters::Rem)),
        b"and" => Some(Form::Arithmetic(OnRegisters::And)),
        b"or" => Some(Form::Arithmetic(OnRegisters::Or)),
        b"xor" => Some(Form::Arithmetic(OnRegisters::Xor)),
        b"shl" => Some(Form::Arithmetic(OnRegisters::Shl)),
        b"shr" => Some(Form::Arithmetic(OnRegisters::Shr)),
        b"slt" => Some(Form::Arithmetic(OnRegisters::Slt)),
        b"seq" => Some(Form::Arithmetic(OnRegisters::Seq)),
        b"addi" => Some(Form::Number(OnNumber::Addi)),
        b"subi" => Some(Form::Number(OnNumber::Subi)),
        b"muli" => Some(Form::Number(OnNumber::Muli)),
        b"ld" => Some(Form::Number(OnNumber::Ld)),
        b"st" => Some(Form::Number(OnNumber::St)),
        b"jmp" => Some(Form::Jmp),
        b"beq" => Some(Form::Branch(OnLabel::Beq)),
        b"bne" => Some(Form::Branch(OnLabel::Bne)),
        b"blt" => Some(Form::Branch(OnLabel::Blt)),
        b"bge" => Some(Form::Branch(OnLabel::Bge)),
        b"lock" => Some(Form::Object(OnObject::Lock)),
        b"unlock" => Some(Form::Object(OnObject::Unlock)),
        b"bar" => Some(Form::Object(OnObject::Bar)),
        b"set" => Some(Form::Object(OnObject::Set)),
        b"wait" => Some(Form::Object(OnObject::Wait)),
        b"waitr" => Some(Form::Object(OnObject::Waitr)),
        b"out" => Some(Form::Register(OnRegister::Out)),
        b"halt" => Some(Form::Halt),
        _ => None,
    }
}

impl OnRegister {
    pub fn on(self, r: Reg) -> Instr
        ensures { result ≡ with_register self r }
    {
        match self {
            OnRegister::Me => Instr::Me { d: r },
            OnRegister::Procs => Instr::Procs { d: r },
            OnRegister::Out => Instr::Out { s: r },
        }
    }
}

impl OnRegisters {
    pub fn on(self, d: Reg, a: Reg, b: Reg) -> Instr
        ensures { result ≡ with_registers self d a b }
    {
        match self {
            OnRegisters::Add => Instr::Add { d, a, b },
            OnRegisters::Sub => Instr::Sub { d, a, b },
            OnRegisters::Mul => Instr::Mul { d, a, b },
            OnRegisters::Div => Instr::Div { d, a, b },
            OnRegisters::Rem => Instr::Rem { d, a, b },
            OnRegisters::And => Instr::And { d, a, b },
            OnRegisters::Or => Instr::Or { d, a, b },
            OnRegisters::Xor => Instr::Xor { d, a, b },
            OnRegisters::Shl => Instr::Shl { d, a, b },
            OnRegisters::Shr => Instr::Shr { d, a, b },
            OnRegisters::Slt => Instr::Slt { d, a, b },
            OnRegisters::Seq => Instr::Seq { d, a, b },
        }
    }
}

impl OnNumber {
    pub fn on(self, r: Reg, a: Reg, k: u64) -> Instr
        ensures { result ≡ with_number self r a k }
    {
        match self {
            OnNumber::Addi => Instr::Addi { d: r, a, k },
            OnNumber::Subi => Instr::Subi { d: r, a, k },
            OnNumber::Muli => Instr::Muli { d: r, a, k },
            OnNumber::Ld => Instr::Ld { d: r, a, k },
            OnNumber::St => Instr::St { s: r, a, k },
        }
    }
}

impl OnLabel {
    pub fn on(self, a: Reg, b: Reg, to: u32) -> Instr
        ensures { result ≡ with_label self a b to }
    {
        match self {
            OnLabel::Beq => Instr::Beq { a, b, to },
            OnLabel::Bne => Instr::Bne { a, b, to },
            OnLabel::Blt => Instr::Blt { a, b, to },
            OnLabel::Bge => Instr::Bge { a, b, to },
        }
    }
}
