ghost use Rattle.std.specs.Prelude.{◌≡◌, ◌++◌, take, length, min};

use std::marker::Model;

/// Bytes in memory that are given out from the front.
#[derive(Drop)]
pub struct Unread {
    bytes: Vec<u8>,
    at: usize,
}

impl Model for Unread {
    ghost use Rattle.std.specs.Prelude.{ℕ, List, ◌≤◌, drop, vec_len};

    ghost Value = { List ℕ };

    ghost view = { λ u. drop u.at u.bytes.items };

    ghost invariant = { λ u. u.at ≤ vec_len u.bytes };
}

impl Unread {
    /// All of these bytes.
    pub fn new(bytes: Vec<u8>) -> Unread
        ensures { result ≡ bytes.items }
    {
        Unread { bytes, at: 0 }
    }

    /// Moves the next bytes to the front of `buf`, as many as there are and as it has room for, and
    /// `most` at the most. It answers how many.
    pub fn take_into(&mut self, buf: &mut [u8], most: usize) -> usize
        ensures count { result ≡ min (length buf.new) (min most (length self.old)) }
        ensures bytes { self.old ≡ take result buf.new ++ self.new }
    {
        let count = buf.len().min(most.min(self.bytes.len() - self.at));
        let end = self.at + count;
        buf[..count].copy_from_slice(&self.bytes[self.at..end]);
        self.at = end;
        count
    }
}
