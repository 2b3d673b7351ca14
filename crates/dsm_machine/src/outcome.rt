ghost use Rattle.std.specs.Prelude.{◌≡◌};
ghost use Rattle.dsm_machine.specs.Results.{number_of, node_in, whether_of, pages_of, row_of, holder_of, got_of};

use dsm_directory::row::Row;
use dsm_sync::got::Got;

/// What a phase found.
#[derive(Clone, Copy)]
pub enum Outcome {
    Nothing,
    Number { v: u64 },
    Node { h: u32 },
    Whether { b: bool },
    Pages { set: [u64; 4] },
    Row { row: Row },
    Holder { m: Option<u32> },
    Got { got: Got },
}

impl Outcome {
    /// The number, and 0 where it is none.
    pub fn number(self) -> u64
        ensures { result ≡ number_of self }
    {
        match self {
            Outcome::Number { v } => v,
            _ => 0,
        }
    }

    /// The node, and 0 where it is none.
    pub fn node(self) -> u32
        ensures { result ≡ node_in self }
    {
        match self {
            Outcome::Node { h } => h,
            _ => 0,
        }
    }

    /// The answer, and no where it is none.
    pub fn whether(self) -> bool
        ensures { result ≡ whether_of self }
    {
        match self {
            Outcome::Whether { b } => b,
            _ => false,
        }
    }

    /// The set of pages, and the empty one where it is none.
    pub fn pages(self) -> [u64; 4]
        ensures { result ≡ pages_of self }
    {
        match self {
            Outcome::Pages { set } => set,
            _ => [0; 4],
        }
    }

    /// What the directory says, and that nobody uses the page where it is no such thing.
    pub fn row(self) -> Row
        ensures { result ≡ row_of self }
    {
        match self {
            Outcome::Row { row } => row,
            _ => Row {
                own: 0,
                others: false,
                busy: 0,
            },
        }
    }

    /// The node that has a page alone, if there is one.
    pub fn holder(self) -> Option<u32>
        ensures { result ≡ holder_of self }
    {
        match self {
            Outcome::Holder { m } => m,
            _ => None,
        }
    }

    /// What a look found, and that its object was not ready where it is no such thing.
    pub fn got(self) -> Got
        ensures { result ≡ got_of self }
    {
        match self {
            Outcome::Got { got } => got,
            _ => Got::Unready,
        }
    }
}
