use std::alloc::{AllocError, AllocFailed};

/// Memory was wanted and not got. It is never merged with another cause, and made of an allocator's
/// error alone.
#[derive(Clone, Copy, Debug, PartialEq, Eq)]
pub struct NoMemory {
    cause: AllocError,
}

impl From<AllocError> for NoMemory {
    fn from(cause: AllocError) -> NoMemory {
        NoMemory { cause }
    }
}

impl<T: Drop> From<AllocFailed<T>> for NoMemory {
    fn from(failed: AllocFailed<T>) -> NoMemory {
        NoMemory::from(AllocError::from(failed))
    }
}

/// What a synchronisation entry is about.
#[derive(Clone, Copy, Debug, PartialEq, Eq)]
pub enum Obj {
    /// The lock of this number.
    Lock(u32),
    /// The barrier of this number.
    Barrier(u32),
    /// The flag of this number.
    Flag(u32),
    /// The closing barrier, at which every processor arrives when it halts.
    Close,
}

/// One thing that a processor did, with what it was told.
#[derive(Clone, Copy, Debug, PartialEq, Eq)]
pub enum Entry {
    /// It loaded word `w` and was given `v`.
    Load { w: u32, v: u64 },
    /// It stored `v` to word `w`.
    Store { w: u32, v: u64 },
    /// It made the signal of number `j`, from 0, at the object `o`.
    Signal { o: Obj, j: u64 },
    /// It passed the object `o`, behind the signals with numbers below `c`.
    Pass { o: Obj, c: u64 },
    /// It printed `v`.
    Out { v: u64 },
}

/// Entry `i`, from 0, of processor `p`. Places are ordered by `p`, then `i`.
#[derive(Clone, Copy, Debug, PartialEq, Eq, PartialOrd, Ord)]
pub struct Place {
    pub p: u32,
    pub i: u64,
}
