ghost use Rattle.std.specs.Prelude.{◌≡◌, ℕ, ◌<◌, ◌≤◌, ◌↔◌, drop, length, Some, IfOk, OnOk, IsErr, OnErr, MatchResult};
ghost use Rattle.std.specs.Io.KnownBytes.{ReadConsumes};
ghost use Rattle.dsm_io.specs.Faults.{Rose};
ghost use Rattle.dsm_io.specs.Memory.{FailsNext, called, called_in_vain, count_read};

use crate::planned::PlannedCalls;
use crate::source::{Failed, Source};
use crate::unread::Unread;
use std::marker::Model;

/// A source in memory, which gives at most `chunk` bytes a read, and whose planned reads fail.
#[derive(Drop)]
pub struct MemSource {
    unread: Unread,
    chunk: usize,
    calls: PlannedCalls,
}

impl Model for MemSource {
    ghost use Rattle.std.specs.Prelude.{◌<◌};
    ghost use Rattle.dsm_io.specs.Memory.{MemorySource};

    ghost Value = { MemorySource };

    ghost view = { λ s. record { left = s.unread; chunk = s.chunk; calls = s.calls } };

    ghost invariant = { λ s. 0 < s.chunk };
}

impl MemSource {
    /// A source of these bytes. `fail` has the numbers, from 1, of the reads that fail.
    pub fn new(bytes: Vec<u8>, chunk: usize, fail: Vec<u64>) -> MemSource
        requires { 0 < chunk }
        ensures left { result.left ≡ bytes.items }
        ensures chunk { result.chunk ≡ chunk }
        ensures calls { result.calls ≡ record { fail = fail.items; made = 0; failed = 0 } }
    {
        MemSource {
            unread: Unread::new(bytes),
            chunk,
            calls: PlannedCalls::new(fail),
        }
    }
}

impl Source for MemSource {
    ghost left = { λ s. Some s.left };

    ghost faults = { λ s. s.calls.failed };

    fn read(&mut self, buf: &mut [u8]) -> Result<usize, Failed>
        ensures bound { IfOk result (λ k. k ≤ length buf.new) }
        ensures bytes { ReadConsumes (Some self.old.left) (Some self.new.left) result buf.new }
        ensures failed { OnErr result (Rose self.old.calls.failed self.new.calls.failed) }
        ensures counts { self.old.calls.failed ≤ self.new.calls.failed }
        ensures well { OnOk result (self.new.calls.failed ≡ self.old.calls.failed) }
        // Exactly the planned reads fail.
        ensures fails { IsErr result ↔ FailsNext self.old.calls }
        // The others give as much as the buffer, the chunk and the bytes left allow.
        ensures count { IfOk result (λ k. k ≡ count_read self.old (length buf.new)) }
        ensures chunk { self.new.chunk ≡ self.old.chunk }
        ensures calls { MatchResult result
            (λ _. self.new.calls ≡ called self.old.calls)
            (λ _. self.new.calls ≡ called_in_vain self.old.calls) }
    {
        if self.calls.next_fails() {
            return Err(Failed);
        }
        Ok(self.unread.take_into(buf, self.chunk))
    }
}
