ghost use Rattle.std.specs.Prelude.{◌≡◌};
ghost use Rattle.dsm_protocol.specs.Own.{no_counts, added};

/// How often each thing happened, modulo 2^64.
#[derive(Clone, Copy, Debug, PartialEq, Eq)]
pub struct Counts {
    /// Loads that found no mapping.
    pub read_faults: u64,
    /// Stores that found no mapping for stores.
    pub write_faults: u64,
    /// Frames overwritten from the home.
    pub overwrites: u64,
    /// Changes of the home merged into a frame.
    pub merges: u64,
    /// Twins made.
    pub twins: u64,
    /// Pages flushed to the home.
    pub flushes: u64,
    /// Pages that another processor had flushed already.
    pub early: u64,
    /// Write notices sent.
    pub notices: u64,
    /// Mappings taken back.
    pub unmaps: u64,
    /// Pages that became exclusive.
    pub enters: u64,
    /// Pages that stopped being exclusive.
    pub breaks: u64,
    /// Looks that found their object not ready.
    pub unready: u64,
}

impl Counts {
    /// Nothing happened yet.
    pub fn none() -> Counts
        ensures { result ≡ no_counts }
    {
        Counts {
            read_faults: 0,
            write_faults: 0,
            overwrites: 0,
            merges: 0,
            twins: 0,
            flushes: 0,
            early: 0,
            notices: 0,
            unmaps: 0,
            enters: 0,
            breaks: 0,
            unready: 0,
        }
    }

    /// Both counts together.
    pub fn add(self, other: Counts) -> Counts
        ensures { result ≡ added self other }
    {
        Counts {
            read_faults: self.read_faults.wrapping_add(other.read_faults),
            write_faults: self.write_faults.wrapping_add(other.write_faults),
            overwrites: self.overwrites.wrapping_add(other.overwrites),
            merges: self.merges.wrapping_add(other.merges),
            twins: self.twins.wrapping_add(other.twins),
            flushes: self.flushes.wrapping_add(other.flushes),
            early: self.early.wrapping_add(other.early),
            notices: self.notices.wrapping_add(other.notices),
            unmaps: self.unmaps.wrapping_add(other.unmaps),
            enters: self.enters.wrapping_add(other.enters),
            breaks: self.breaks.wrapping_add(other.breaks),
            unready: self.unready.wrapping_add(other.unready),
        }
    }
}
