use crate::reader::Reader;

/// Where a reader stands.
#[derive(Clone, Copy, Debug, PartialEq, Eq)]
pub enum Stand {
    /// Before an instruction.
    Before(Reader),
    /// At barrier `b`, which it has not passed; behind it the reader is this.
    Met { reader: Reader, b: u32 },
    /// At the closing barrier, which it has not passed.
    Arrived,
    /// Behind the closing barrier.
    Passed,
}
