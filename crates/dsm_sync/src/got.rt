/// What a try or a look found.
#[derive(Clone, Copy, Debug, PartialEq, Eq)]
pub enum Got {
    /// The object is passed with count `c`: the pass comes after the signals of that object with numbers below `c`.
    Ready { c: u64 },
    /// It was not ready just then, or another processor was faster.
    Unready,
}
