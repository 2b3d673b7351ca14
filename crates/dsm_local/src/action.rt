use crate::end::Trap;
use dsm_isa::reg::Reg;

/// What a processor that stands before an instruction does next.
#[derive(Clone, Copy, Debug, PartialEq, Eq)]
pub enum Action {
    /// `d := v`
    Set { d: Reg, v: u64 },
    /// Goes to the instruction at place `to`.
    Jump { to: u32 },
    /// `d :=` word `w`
    LoadWord { d: Reg, w: u32 },
    /// word `w := v`
    StoreWord { w: u32, v: u64 },
    /// Prints `v`.
    Print { v: u64 },
    /// Takes lock `l`.
    TakeLock { l: u32 },
    /// Gives lock `l` back, whose open pass has the count `k`.
    GiveLock { l: u32, k: u64 },
    /// Arrives at barrier `b`, and waits for all.
    Meet { b: u32 },
    /// Sets flag `f` once more.
    RaiseFlag { f: u32 },
    /// Waits until flag `f` was set at least `need` times.
    WaitFlag { f: u32, need: u64 },
    /// Ends, since the instruction can't be done.
    Trap { kind: Trap },
    /// Ends, since it may do no further instruction.
    Spend,
    /// Arrives at the closing barrier.
    Arrive,
}
