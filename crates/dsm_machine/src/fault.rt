/// Where a fault stands: behind the phase that is under way. `h` is the home of its page, `busy` are the nodes that it visits, bit m for node
/// m, and `t` is the time of its fetch.
#[derive(Clone, Copy)]
pub enum FaultAt {
    /// The turn of the page is taken.
    Taken,
    /// The own word of the directory was loaded, which was `d`.
    Dir,
    Home { d: u64 },
    Registered { h: u32 },
    /// The directory was read.
    Looked { h: u32 },
    /// The mapping is a wanted one.
    Wanted { h: u32, busy: u32 },
    /// The turn is given back for visits.
    Left { h: u32, busy: u32 },
    /// In a visit of node `m`: its turn is taken, its word loaded, its page broken, its turn given back.
    VisitTaken { h: u32, busy: u32, m: u32 },
    VisitDir { h: u32, busy: u32, m: u32 },
    VisitBroken { h: u32, busy: u32, m: u32 },
    VisitGiven { h: u32, busy: u32, m: u32 },
    /// The turn is taken again, and the own word loaded again.
    Retaken { h: u32 },
    Redir { h: u32 },
    /// Whether the copy is out of date was found.
    Checked { h: u32 },
    /// In a fetch: the time is drawn, the twin looked for, the words got, the time noted.
    FetchDrawn { h: u32 },
    FetchTwin { h: u32, t: u64 },
    FetchCopied { t: u64, merged: bool },
    FetchStamped,
    /// The mapping is stored: the node has the page alone, or shares it.
    AloneMapped,
    SharedMapped,
    /// The turn is given back.
    Given,
}
