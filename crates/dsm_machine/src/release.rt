/// Where a release stands: behind the phase that is under way. `h` is the home of its page, `t` the time of its flush.
#[derive(Clone, Copy)]
pub enum ReleaseAt {
    /// Its own time is drawn, and the pages that are no longer exclusive are taken.
    Drawn,
    Joined,
    /// The turn of the page is taken, and the own word of the directory loaded.
    Taken,
    Dir,
    Home,
    /// The time of the node's last flush was loaded.
    Last { h: u32 },
    Time { h: u32 },
    /// The twin was looked for, and flushed.
    Twin { h: u32, t: u64 },
    Flushed { h: u32, t: u64 },
    /// The time of the flush is noted, and the others are told.
    Stamped { h: u32, flushed: bool },
    Posted { h: u32, flushed: bool },
    /// The page may only be read now.
    Lowered { flushed: bool },
    Dropped,
    /// The turn is given back.
    Given,
}
