use dsm_entry::entry::Place;

/// What is to be said of the accesses to a word.
#[derive(Clone, Copy, Debug, PartialEq, Eq)]
pub enum Verdict {
    /// Of every two conflicting places one is before the other.
    Ordered,
    /// Two conflicting places of which neither is before the other: the first such pair.
    Raced { x: Place, y: Place },
}
