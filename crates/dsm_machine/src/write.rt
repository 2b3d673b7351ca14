/// Where a store's fault stands in what a load's has not: behind the phase that is under way. `h` is the home of its page, `t` the time of its
/// entering.
#[derive(Clone, Copy)]
pub enum WriteAt {
    /// No other node uses the page: the twin was looked for.
    Sole { h: u32 },
    /// The page is claimed, and the directory read again.
    Claimed { h: u32 },
    Relooked { h: u32 },
    /// The claim is withdrawn.
    Withdrawn { h: u32 },
    /// It enters exclusive mode: the time is drawn, the words got, the time noted, the directory's word stored.
    EnterDrawn { h: u32 },
    EnterCopied { t: u64 },
    EnterStamped,
    Entered,
    /// The twin was looked for, or made.
    TwinFound,
    TwinMade,
}
