/// The limit that a number is above or below.
#[derive(Clone, Copy, Debug, PartialEq, Eq)]
pub enum Bound {
    /// `.pages`: 1 to 256.
    Pages,
    /// `.words`: 1 to 256.
    Words,
    /// `.locks`: at most 64.
    Locks,
    /// `.barriers`: at most 16.
    Barriers,
    /// `.flags`: at most 64.
    Flags,
    /// The first number of `.init`: below the number of all words, as it stands at that line.
    Address,
    /// The number of a lock: below the number of locks.
    Lock,
    /// The number of a barrier: below the number of barriers.
    Barrier,
    /// The number of a flag: below the number of flags.
    Flag,
    /// The number of instructions: at most 4,096.
    Code,
}

/// What is wrong with a line of a program text. Of several faults on one line the first in this order is meant, and of
/// its operands the leftmost.
#[derive(Clone, Copy, Debug, PartialEq, Eq)]
pub enum AsmKind {
    /// Before the comment there is a byte that is not printable ASCII, a tab or a carriage return.
    NotAscii,
    /// The line has more than 200 bytes.
    LongLine,
    /// An earlier line defines this label.
    DoubleLabel,
    /// The first word behind the label is neither a directive nor an instruction.
    UnknownWord,
    /// A directive behind a label or an instruction, or a size behind an initial word.
    DirectiveLate,
    /// The number of operands is wrong.
    BadOperand,
    /// A word in a register's place is none.
    BadRegister,
    /// A word in a number's place is none.
    BadNumber,
    /// A word in a label's place is defined by no line.
    NoLabel,
    /// A number is out of this limit.
    Limit(Bound),
    /// The text has no instruction. It is named with line 1.
    NoCode,
}
