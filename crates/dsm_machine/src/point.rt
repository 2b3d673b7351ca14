ghost use Rattle.std.specs.Prelude.{◌≡◌};
ghost use Rattle.dsm_machine.specs.Faults.{address_of};

use crate::acquire::AcquireAt;
use crate::closing::ClosingAt;
use crate::fault::FaultAt;
use crate::release::ReleaseAt;
use crate::write::WriteAt;
use dsm_local::end::End;
use dsm_protocol::head::Head;
use dsm_sync::counter::Counter;

/// The load or store behind a fault.
#[derive(Clone, Copy)]
pub enum Access {
    /// The register of number `d` gets the word of address `w`.
    Load { d: u32, w: u32 },
    /// The word of address `w` becomes `v`.
    Store { w: u32, v: u64 },
}

impl Access {
    /// Its address.
    pub fn address(self) -> u32
        ensures { result ≡ address_of self }
    {
        match self {
            Access::Load { d: _, w } => w,
            Access::Store { w, v: _ } => w,
        }
    }
}

/// The signal behind a release.
#[derive(Clone, Copy)]
pub enum Signal {
    /// Lock `l`, whose open pass has the count `k`, is given back.
    Free { l: u32, k: u64 },
    /// It arrives at a barrier, or at the closing barrier.
    Meet { of: Counter },
    /// Flag `f` is set once more.
    Raise { f: u32 },
}

/// A release that began at time `t0` and has come to page `g`.
#[derive(Clone, Copy)]
pub struct Release {
    pub signal: Signal,
    pub t0: u64,
    pub g: u32,
}

/// What the phase under way is for.
#[derive(Clone, Copy)]
pub enum Next {
    /// A fault.
    Fault {
        access: Access,
        at: FaultAt,
    },
    /// A part of a fault that only a store has.
    Write {
        w: u32,
        v: u64,
        at: WriteAt,
    },
    Release {
        r: Release,
        at: ReleaseAt,
    },
    /// The operation of a signal.
    Signal {
        signal: Signal,
    },
    /// An acquire that has taken these pages and has come to page `g`.
    Acquire {
        set: [u64; 4],
        g: u32,
        at: AcquireAt,
    },
    /// Closing work that has come to page `g`, which node `m` had alone.
    Closing {
        g: u32,
        m: u32,
        at: ClosingAt,
    },
    /// A try of lock `l`.
    Try {
        l: u32,
    },
    /// A look at an object, until it has had `need` signals.
    Look {
        of: Counter,
        need: u64,
    },
}

/// Where a processor stands between two events.
#[derive(Clone, Copy)]
pub enum Point {
    /// At a head.
    At { head: Head },
    /// Before an access that its mapping allows.
    Accessing { access: Access },
    /// Before the load of the stop word that goes with an instruction which gives the register of number `d`
    /// the value `v`, jumps, or prints.
    Setting { d: u32, v: u64 },
    Jumping { to: u32 },
    Printing { v: u64 },
    /// Within a phase.
    Working { next: Next },
    /// Behind an unready look: before the load of the stop word.
    Heeding { again: Head },
    /// Before the exchange of the stop word, with which this end comes.
    Stopping { end: End },
    Over { end: End },
}
