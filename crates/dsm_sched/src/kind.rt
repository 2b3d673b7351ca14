/// Which processor's event comes next.
#[derive(Clone, Copy, Debug, PartialEq, Eq)]
pub enum Kind {
    /// That of the next one in cyclic order that has not ended; the first event is processor 0's.
    Round,
    /// That of one drawn from those that have not ended: each event takes one word of SplitMix64, which begins with the
    /// eight little-endian bytes of the seed.
    Mixed { seed: u64 },
}
