/// Where the closing work stands: behind the phase that is under way.
#[derive(Clone, Copy)]
pub enum ClosingAt {
    /// The node that has the page alone was looked for.
    Held,
    /// The turn of that node's copy is taken, its word loaded, the home found, the page broken, and the turn given back.
    Taken,
    Dir,
    Home,
    Broken,
    Given,
}
