/// What a processor can't do, and stops at.
#[derive(Clone, Copy, Debug, PartialEq, Eq)]
pub enum Trap {
    /// A load or store of address `w`, which is above the last word.
    Address { w: u64 },
    /// An unlock of lock `l`, of which it has no open pass.
    NotHeld { l: u32 },
    /// A quotient or rest by 0.
    DivideByZero,
}

/// How a processor ended.
#[derive(Clone, Copy, Debug, PartialEq, Eq)]
pub enum End {
    /// It passed the closing barrier.
    Halted,
    /// It stopped before the instruction at place `at`, from 0.
    Trapped { at: u32, kind: Trap },
    /// It had done as many instructions as it may, and a further one would have begun.
    Spent,
    /// It waited, and looked as often as it may.
    Looked,
    /// It waited, and saw that processor `by` had stopped.
    Stopped { by: u32 },
    /// It had no memory for a further entry.
    NoMemory,
}
