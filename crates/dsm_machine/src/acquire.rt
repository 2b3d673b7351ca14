/// Where an acquire stands: behind the phase that is under way.
#[derive(Clone, Copy)]
pub enum AcquireAt {
    /// The turn of the notices is taken, they are drained, and it is given back.
    NoticesTaken,
    Drained,
    NoticesGiven,
    /// The pages of which it was told are taken.
    OwnTaken,
    /// The turn of the page is taken, the own word of the directory loaded, and whether the copy is out of date was found.
    Taken,
    Dir,
    Checked,
    /// The page is mapped no more, and its node has left it if nobody there uses it.
    Unmapped,
    Left,
    /// The turn is given back.
    Given,
}
