// The homes of pages: those that a layout was told, and those that the words name.
ghost use Rattle.std.specs.Prelude.{◌≡◌, ◌*◌, ◌<◌, Some, length};
ghost use Rattle.dsm_words.specs.Homes.{home_in, master};
ghost use Rattle.dsm_words.specs.Place.{lay_of, home, place, total};

use crate::item::Item;
use crate::layout::Layout;

impl Layout {
    /// The home of page `g`, as far as it was told: else node g mod N.
    pub fn home(&self, g: u32) -> u32
        requires { g < self.now.pages }
        ensures home { result ≡ home self.now g }
        ensures within { result < self.now.t.nodes }
    {
        match self.told {
            Some((page, node)) if page == g => node,
            _ => g % self.t.nodes,
        }
    }

    /// The same layout, which is told the home of page `g`.
    pub fn with_home(&self, g: u32, h: u32) -> Layout
        requires page { g < self.now.pages }
        requires home { h < self.now.t.nodes }
        ensures lay { lay_of result ≡ lay_of self.now }
        ensures told { result.told ≡ Some (g, h) }
        ensures home { home result g ≡ h }
    {
        Layout {
            t: self.t,
            pages: self.pages,
            words: self.words,
            locks: self.locks,
            barriers: self.barriers,
            flags: self.flags,
            told: Some((g, h)),
        }
    }

    /// The home of page `g` by these words: the node that its word names, and node 0 where it names none.
    pub fn home_in(&self, words: &[u64], g: u32) -> u32
        requires words { length words.now ≡ total (lay_of self.now) }
        requires page { g < self.now.pages }
        ensures home { result ≡ home_in (lay_of self.now) words.now g }
        ensures within { result < self.now.t.nodes }
    {
        let named = words[self.place(Item::Home { g }) as usize];
        (named.saturating_sub(1) % u64::from(self.t.nodes)) as u32
    }

    /// The place of the word of address `w` at the home of its page.
    pub fn master(&self, words: &[u64], w: u32) -> u64
        requires words { length words.now ≡ total (lay_of self.now) }
        requires address { w < self.now.pages * self.now.words }
        ensures place { result ≡ place (lay_of self.now) (master (lay_of self.now) words.now w) }
        ensures within { result < total (lay_of self.now) }
    {
        let g = w / self.words;
        let n = self.home_in(words, g);
        let i = w % self.words;
        self.place(Item::Frame { n, g, i })
    }
}
