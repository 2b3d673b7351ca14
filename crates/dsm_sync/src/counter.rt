ghost use Rattle.std.specs.Prelude.{◌≡◌, ◌<◌};
ghost use Rattle.dsm_words.specs.Place.{lay_of, place, total};
ghost use Rattle.dsm_sync.specs.Counters.{counter_item, counter_number, counters_of};

use dsm_words::item::Item;
use dsm_words::layout::Layout;

/// An object whose word counts its signals: arrivals at a barrier or at the closing barrier, or sets of a flag.
#[derive(Clone, Copy, Debug, PartialEq, Eq)]
pub enum Counter {
    Barrier { b: u32 },
    Flag { f: u32 },
    Close,
}

impl Counter {
    /// The place of its word.
    pub(crate) fn place(self, lay: &Layout) -> u64
        requires { counter_number self < counters_of (lay_of lay.now) self }
        ensures place { result ≡ place (lay_of lay.now) (counter_item self) }
        ensures within { result < total (lay_of lay.now) }
    {
        match self {
            Counter::Barrier { b } => lay.place(Item::Barrier { b }),
            Counter::Flag { f } => lay.place(Item::Flag { f }),
            Counter::Close => lay.place(Item::Close),
        }
    }
}
