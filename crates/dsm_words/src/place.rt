// Where each word stands: blocks one after another, each with its words in the order of their numbers.
ghost use Rattle.std.specs.Prelude.{◌≡◌, ◌+◌, ◌^◌, ◌<◌, ◌≤◌};
ghost use Rattle.dsm_words.specs.Place.{lay_of, IsWithin, groups, sizes, offset, start, place, total};

use crate::item::Item;
use crate::layout::Layout;

impl Layout {
    /// Into how many groups of 64 the pages fall, 1 to 4.
    pub fn groups(&self) -> u32
        ensures value { result ≡ groups (lay_of self.now) }
        ensures most { result ≤ 4 }
    {
        (self.pages + 63) / 64
    }

    /// Where block `block` begins, behind the words of all blocks before it; block 20 begins behind the last word.
    fn start(&self, block: usize) -> u64
        requires { block ≤ 20 }
        ensures value { result ≡ start (sizes (lay_of self.now)) block }
        ensures most { result ≤ 2 ^ 37 }
    {
        let nodes = u64::from(self.t.nodes);
        let rows = u64::from(self.t.nodes * self.pages);
        let frames = u64::from(self.t.nodes * self.pages * self.words);
        let maps = u64::from(self.t.all() * self.pages);
        match block {
            0 => 0,
            1 => 1,
            2 => 1 + frames,
            3 => 1 + 2 * frames,
            4 => 1 + 2 * frames + rows,
            5 => 1 + 2 * frames + rows + maps,
            6 => 1 + 2 * frames + 2 * rows + maps,
            7 => 1 + 2 * frames + 3 * rows + maps,
            8 => 1 + 2 * frames + 4 * rows + maps,
            9 => 1 + 2 * frames + 5 * rows + maps,
            10 => 1 + 2 * frames + 5 * rows + maps + nodes,
            11 => 1 + 2 * frames + 6 * rows + maps + nodes,
            _ => 1 + 2 * frames + 6 * rows + maps + 2 * nodes + self.behind_turns(block),
        }
    }

    /// How many words stand between the turns of notices and block `block`, which is one behind them.
    fn behind_turns(&self, block: usize) -> u64
        requires first { 12 ≤ block }
        requires last { block ≤ 20 }
        ensures value { start (sizes (lay_of self.now)) 12 + result ≡ start (sizes (lay_of self.now)) block }
        ensures most { result ≤ 2 ^ 36 }
    {
        let groups = self.groups();
        let notices = u64::from(self.t.nodes * self.t.nodes * groups);
        let own = u64::from(self.t.all() * groups);
        let locks = u64::from(self.locks);
        let barriers = u64::from(self.barriers);
        let flags = u64::from(self.flags);
        match block {
            12 => 0,
            13 => notices,
            14 => notices + own,
            15 => notices + 2 * own,
            16 => notices + 2 * own + locks,
            17 => notices + 2 * own + locks + barriers,
            18 => notices + 2 * own + locks + barriers + flags,
            19 => notices + 2 * own + locks + barriers + flags + 1,
            _ => notices + 2 * own + locks + barriers + flags + 1 + u64::from(self.pages),
        }
    }

    /// The place of the item's word in its block.
    fn offset(&self, item: Item) -> u32
        requires { IsWithin (lay_of self.now) item }
        ensures { result ≡ offset (lay_of self.now) item }
    {
        match item {
            Item::Stop | Item::Close => 0,
            Item::Frame { n, g, i } | Item::Twin { n, g, i } => (n * self.pages + g) * self.words
                + i,
            Item::Twined { n, g }
            | Item::Dir { n, g }
            | Item::Update { n, g }
            | Item::Flush { n, g }
            | Item::Notice { n, g }
            | Item::Turn { n, g } => n * self.pages + g,
            Item::Map { p, g } => p * self.pages + g,
            Item::Clock { n } | Item::NoticeTurn { n } => n,
            Item::Global { n, m, k } => (n * self.t.nodes + m) * self.groups() + k,
            Item::Own { p, k } | Item::Nle { p, k } => p * self.groups() + k,
            Item::Lock { l } => l,
            Item::Barrier { b } => b,
            Item::Flag { f } => f,
            Item::Home { g } => g,
        }
    }

    /// The place of the item's word, from 0. It takes no memory.
    pub fn place(&self, item: Item) -> u64
        requires { IsWithin (lay_of self.now) item }
        ensures place { result ≡ place (lay_of self.now) item }
        ensures within { result < total (lay_of self.now) }
    {
        match item {
            // These two are asked for at every step of a processor.
            Item::Stop => 0,
            Item::Frame { .. } => 1 + u64::from(self.offset(item)),
            _ => self.start(item.block()) + u64::from(self.offset(item)),
        }
    }

    /// How many words there are, at most 1,069,986.
    pub fn len(&self) -> u64
        ensures { result ≡ total (lay_of self.now) }
    {
        self.start(20)
    }
}
