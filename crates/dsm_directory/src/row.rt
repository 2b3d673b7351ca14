ghost use Rattle.std.specs.Prelude.{◌≡◌, ◌<◌};

/// What the directory says of a page, as one node sees it.
#[derive(Clone, Copy, Debug, PartialEq, Eq)]
pub struct Row {
    /// The word of its own node.
    pub own: u64,
    /// Whether another node's word is not 0.
    pub others: bool,
    /// Bit m says whether node m is another node, and has the page alone or claims it.
    pub busy: u32,
}

impl Row {
    ghost use Rattle.dsm_directory.specs.Directory.{row_with};

    /// Node m's word was `v`, seen by node `n`.
    pub(crate) fn with(self, n: u32, m: u32, v: u64) -> Row
        requires { m < 8 }
        ensures { result ≡ row_with n m v self }
    {
        if m == n {
            return Row {
                own: v,
                others: self.others,
                busy: self.busy,
            };
        }
        Row {
            own: self.own,
            others: self.others || v != 0,
            busy: if v == 2 || v == 3 {
                self.busy | (1 << m)
            } else {
                self.busy
            },
        }
    }
}
