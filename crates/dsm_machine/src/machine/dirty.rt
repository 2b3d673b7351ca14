// The sets of dirty and of taken pages, 64 pages a word.
ghost use Rattle.std.specs.Prelude.{◌≡◌, ◌≤◌, ◌<◌, ℕ, true, false, length, IfSome, None};
ghost use Rattle.dsm_words.specs.Pages.{has_page};
ghost use Rattle.dsm_machine.specs.Dirty.{HasNoPage, cleared_in, with_page};

use super::Machine;

/// The set without page `g`.
fn without(set: [u64; 4], g: u32) -> [u64; 4]
    requires { g < 256 }
    ensures cleared { result ≡ cleared_in set g }
    ensures four { length set ≡ 4 }
{
    let mut left = set;
    left[(g / 64) as usize] &= !(1 << (g % 64));
    left
}

/// The set with page `g`.
fn with(set: [u64; 4], g: u32) -> [u64; 4]
    requires { g < 256 }
    ensures set { result ≡ with_page set g }
    ensures four { length set ≡ 4 }
{
    let mut more = set;
    more[(g / 64) as usize] |= 1 << (g % 64);
    more
}

/// The first page of the set from page `from` on and below `to`.
pub(super) fn first_page(set: [u64; 4], from: u32, to: u32) -> Option<u32>
    requires from { from ≤ to }
    requires to { to ≤ 256 }
    ensures some { IfSome result (λ g. (from ≤ g) × (g < to) × (has_page set g ≡ true) × HasNoPage set from g) }
    ensures none { result ≡ None → HasNoPage set from to }
{
    let mut at = from;
    while at < to {
        let rest = set[(at / 64) as usize] >> (at % 64);
        if rest != 0 {
            let g = at + rest.trailing_zeros();
            return if g < to { Some(g) } else { None };
        }
        at += 64 - at % 64;
    }
    None
}

impl Machine {
    ghost use Rattle.dsm_protocol.specs.Own.{joined, cleaned, soiled};
    ghost use Rattle.dsm_machine.specs.Machines.{who, own_of};

    /// The pages of a set become dirty.
    pub(crate) fn join(&mut self, set: [u64; 4])
        ensures who { who self.new ≡ who self.old }
        ensures own { own_of self.new ≡ joined (own_of self.old) set }
        ensures layout { self.new.lay ≡ self.old.lay }
        ensures reader { self.new.reader ≡ self.old.reader }
        ensures trace { self.new.trace ≡ self.old.trace }
    {
        self.dirty = [
            self.dirty[0] | set[0],
            self.dirty[1] | set[1],
            self.dirty[2] | set[2],
            self.dirty[3] | set[3],
        ];
    }

    /// Page `g` is no longer dirty.
    pub(crate) fn clean(&mut self, g: u32)
        requires { g < self.old.lay.pages }
        ensures who { who self.new ≡ who self.old }
        ensures own { own_of self.new ≡ cleaned (own_of self.old) g }
        ensures layout { self.new.lay ≡ self.old.lay }
        ensures reader { self.new.reader ≡ self.old.reader }
        ensures trace { self.new.trace ≡ self.old.trace }
    {
        self.dirty = without(self.dirty, g);
    }

    /// Page `g` becomes dirty.
    pub(crate) fn soil(&mut self, g: u32)
        requires { g < self.old.lay.pages }
        ensures who { who self.new ≡ who self.old }
        ensures own { own_of self.new ≡ soiled (own_of self.old) g }
        ensures layout { self.new.lay ≡ self.old.lay }
        ensures reader { self.new.reader ≡ self.old.reader }
        ensures trace { self.new.trace ≡ self.old.trace }
    {
        self.dirty = with(self.dirty, g);
    }
}
