ghost use Rattle.std.specs.Prelude.{◌≡◌};

use dsm_grammar::fault::AsmKind;
use std::alloc::{AllocError, AllocFailed};

/// The first fault of a text: its line, from 1, and what is wrong there.
#[derive(Clone, Copy, Debug, PartialEq, Eq)]
pub struct AsmFault {
    pub line: u32,
    pub kind: AsmKind,
}

/// Why a text gave no program.
#[derive(Clone, Copy, Debug, PartialEq, Eq)]
pub enum AsmErr {
    /// It is refused for this fault.
    Refused(AsmFault),
    /// Memory was wanted and not got.
    NoMemory,
}

impl From<AsmFault> for AsmErr {
    ghost use Rattle.dsm_asm.specs.declared.fault.AsmErr.TheVariants.{Refused as refuses};

    ghost from_gives = { λ fault e. e ≡ refuses fault };

    fn from(fault: AsmFault) -> AsmErr {
        AsmErr::Refused(fault)
    }
}

impl From<AllocError> for AsmErr {
    ghost use Rattle.dsm_asm.specs.declared.fault.AsmErr.TheVariants.{NoMemory as wants_memory};

    ghost from_gives = { λ _ e. e ≡ wants_memory };

    fn from(_: AllocError) -> AsmErr {
        AsmErr::NoMemory
    }
}

/// Why a line was not taken.
#[derive(Clone, Copy, Debug, PartialEq, Eq)]
pub enum LineErr {
    /// This is wrong with it.
    Refused(AsmKind),
    /// Memory was wanted and not got.
    NoMemory,
}

impl From<AsmKind> for LineErr {
    ghost use Rattle.dsm_asm.specs.declared.fault.LineErr.TheVariants.{Refused as refuses};

    ghost from_gives = { λ kind e. e ≡ refuses kind };

    fn from(kind: AsmKind) -> LineErr {
        LineErr::Refused(kind)
    }
}

impl From<AllocError> for LineErr {
    ghost use Rattle.dsm_asm.specs.declared.fault.LineErr.TheVariants.{NoMemory as wants_memory};

    ghost from_gives = { λ _ e. e ≡ wants_memory };

    fn from(_: AllocError) -> LineErr {
        LineErr::NoMemory
    }
}

impl<T: Drop> From<AllocFailed<T>> for LineErr {
    ghost use Rattle.dsm_asm.specs.declared.fault.LineErr.TheVariants.{NoMemory as wants_memory};

    ghost from_gives = { λ _ e. e ≡ wants_memory };

    fn from(_: AllocFailed<T>) -> LineErr {
        LineErr::NoMemory
    }
}
