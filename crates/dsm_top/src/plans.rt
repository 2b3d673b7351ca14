ghost use Rattle.std.specs.Prelude.{◌≡◌};
ghost use Rattle.dsm_top.specs.Plans.{runs_by_threads as is_by_threads};

use dsm_protocol::limits::Limits;
use dsm_sched::kind::Kind;
use dsm_words::topology::Topology;

/// The most instructions of a processor that `turns` may allow.
pub const MOST_TURNS: u64 = 1_000_000;

/// The instructions of a processor where `turns` is not given.
pub const DEFAULT_TURNS: u64 = 200_000;

/// The most unready looks of a processor that `looks` may allow.
pub const MOST_LOOKS: u64 = 1_000_000_000;

/// The unready looks of a processor where `looks` is not given.
pub const DEFAULT_LOOKS: u64 = 50_000_000;

/// The most events of all processors that `steps` may allow.
pub const MOST_STEPS: u64 = 1_000_000_000_000;

/// The events of all processors where `steps` is not given.
pub const DEFAULT_STEPS: u64 = 100_000_000;

/// The seed where `seed` is not given.
pub const DEFAULT_SEED: u64 = 0;

/// What the words of a command line ask for.
#[derive(Clone, Copy, Debug, PartialEq, Eq)]
pub enum Plan {
    /// `check`: writes the sizes of the program that the source has.
    Check,
    /// `list`: writes the canonical text of the program.
    List,
    /// `sim NxC` and settings: runs the program on this cluster.
    Sim {
        t: Topology,
        limits: Limits,
        kind: Kind,
        /// The most events of all processors.
        steps: u64,
        /// Whether the report has each entry of each processor.
        trace: bool,
    },
    /// `run NxC` and settings: runs the program on this cluster, with one thread for each processor.
    Run {
        t: Topology,
        /// No look is the last allowed one.
        limits: Limits,
        /// Whether the report has each entry of each processor.
        trace: bool,
    },
    /// `gen seed=s NxC` and settings: runs the program of this seed on this cluster.
    Gen {
        seed: u64,
        t: Topology,
        /// With threads no look is the last allowed one.
        limits: Limits,
        /// The most events of all processors; not used with threads.
        steps: u64,
        /// Whether there is one thread for each processor.
        threads: bool,
    },
}

impl Plan {
    /// Whether it is to run a program with one thread for each processor.
    pub fn runs_by_threads(self) -> bool
        ensures { result ≡ is_by_threads self }
    {
        match self {
            Plan::Run { .. } => true,
            Plan::Gen { threads, .. } => threads,
            Plan::Check | Plan::List | Plan::Sim { .. } => false,
        }
    }
}

/// A command that takes settings.
#[derive(Clone, Copy, Debug, PartialEq, Eq)]
pub enum Command {
    /// `sim`
    Sim,
    /// `run`
    Run,
    /// `gen`
    Gen,
}

/// The word for a kind of schedule.
#[derive(Clone, Copy, Debug, PartialEq, Eq)]
pub enum KindWord {
    /// `round`
    Round,
    /// `mixed`
    Mixed,
}

/// What a word behind the topology sets. `sim` takes all but `threads`, `run` takes `turns` and `trace` alone, and `gen` takes
/// `turns`, `looks`, `steps` and `threads` alone.
#[derive(Clone, Copy, Debug, PartialEq, Eq)]
pub enum Setting {
    /// `kind=round` and `kind=mixed`
    Kind(KindWord),
    /// `seed=s`, which only `kind=mixed` uses
    Seed(u64),
    /// `turns=t`
    Turns(u64),
    /// `looks=l`, which is not used with `threads`
    Looks(u64),
    /// `steps=k`, which is not used with `threads`
    Steps(u64),
    /// `trace`
    Trace,
    /// `threads`
    Threads,
}
