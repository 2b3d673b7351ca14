ghost use Rattle.std.specs.Prelude.{◌≡◌, ◌≤◌, Some, length, min, IsOk, IfOk, OnErr, drop};
ghost use Rattle.std.specs.Io.KnownBytes.{ReadConsumes};
ghost use Rattle.dsm_io.specs.Faults.{Rose};

use crate::source::{Failed, Source};
use crate::unread::Unread;
use std::marker::Model;

/// A source in memory that never fails.
#[derive(Drop)]
pub struct SureSource {
    unread: Unread,
}

impl Model for SureSource {
    ghost use Rattle.std.specs.Prelude.{ℕ, List};

    ghost Value = { List ℕ };

    ghost view = { λ s. s.unread };
}

impl SureSource {
    /// A source of these bytes.
    pub fn new(bytes: Vec<u8>) -> SureSource
        ensures { result ≡ bytes.items }
    {
        SureSource {
            unread: Unread::new(bytes),
        }
    }
}

impl Source for SureSource {
    ghost left = { λ s. Some s };

    ghost faults = { λ _. 0 };

    fn read(&mut self, buf: &mut [u8]) -> Result<usize, Failed>
        ensures bound { IfOk result (λ k. k ≤ length buf.new) }
        ensures bytes { ReadConsumes (Some self.old) (Some self.new) result buf.new }
        ensures failed { OnErr result (Rose 0 0) }
        // It gives as much as the buffer and the bytes left allow.
        ensures sure { IsOk result }
        ensures count { IfOk result (λ k. k ≡ min (length buf.new) (length self.old)) }
    {
        Ok(self.unread.take_into(buf, usize::MAX))
    }
}
