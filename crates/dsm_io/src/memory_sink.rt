ghost use Rattle.std.specs.Prelude.{◌≡◌, ℕ, ◌+◌, ◌<◌, ◌≤◌, ◌↔◌, ◌⊎◌, [], take, length, Some, IfOk, OnOk, IsErr, OnErr, MatchResult};
ghost use Rattle.std.specs.Io.KnownBytes.{Keeps, WriteAppends};
ghost use Rattle.dsm_io.specs.Faults.{Rose};
ghost use Rattle.dsm_io.specs.Memory.{FailsNext, called, called_in_vain, count_written};
ghost use Rattle.dsm_io.specs.Whole.{HandsOnAll};

use crate::planned::PlannedCalls;
use crate::sink::Sink;
use crate::source::Failed;
use dsm_entry::entry::NoMemory;
use std::alloc::Global;
use std::marker::Model;

/// A sink in memory, which takes at most `chunk` bytes a write and `room` in all, hands them on at a
/// finish, and whose planned calls fail.
#[derive(Drop)]
pub struct MemSink {
    bytes: Vec<u8>,
    handed: usize,
    room: usize,
    chunk: usize,
    calls: PlannedCalls,
}

impl Model for MemSink {
    ghost use Rattle.std.specs.Prelude.{◌+◌, ◌≤◌, ◌<◌, vec_len, vec_capacity};
    ghost use Rattle.dsm_io.specs.Memory.{MemorySink};

    ghost Value = { MemorySink };

    ghost view = { λ s. record { written = s.bytes.items; handed = s.handed; room = s.room; chunk = s.chunk; calls = s.calls } };

    ghost invariant = { λ s. (vec_len s.bytes + s.room ≤ vec_capacity s.bytes) × (0 < s.chunk) × (s.handed ≤ vec_len s.bytes) };
}

impl MemSink {
    /// A sink with this room, in bytes. `fail` has the numbers, from 1, of the writes and finishes that fail.
    pub fn new(
        alloc: Global,
        room: usize,
        chunk: usize,
        fail: Vec<u64>,
    ) -> Result<MemSink, NoMemory>
        requires { 0 < chunk }
        ensures written { IfOk result (λ s. s.written ≡ []) }
        ensures handed { IfOk result (λ s. s.handed ≡ 0) }
        ensures room { IfOk result (λ s. s.room ≡ room) }
        ensures chunk { IfOk result (λ s. s.chunk ≡ chunk) }
        ensures calls { IfOk result (λ s. s.calls ≡ record { fail = fail.items; made = 0; failed = 0 }) }
    {
        Ok(MemSink {
            bytes: Vec::with_capacity(alloc, room)?,
            handed: 0,
            room,
            chunk,
            calls: PlannedCalls::new(fail),
        })
    }

    /// What was written so far.
    pub fn bytes(&self) -> &[u8]
        ensures { result.now ≡ self.now.written }
    {
        self.bytes.as_slice()
    }

    /// What was handed on so far: what was written before the last finish that went well.
    pub fn handed(&self) -> &[u8]
        ensures { result.now ≡ take self.now.handed self.now.written }
    {
        &self.bytes[..self.handed]
    }
}

impl Sink for MemSink {
    ghost written = { λ s. Some s.written };

    ghost handed = { λ s. Some (take s.handed s.written) };

    ghost faults = { λ s. s.calls.failed };

    fn write(&mut self, piece: &[u8]) -> Result<usize, Failed>
        ensures bound { IfOk result (λ k. k ≤ length piece.now) }
        ensures progress { 0 < length piece.now → IfOk result (λ k. 0 < k) }
        ensures bytes { WriteAppends (Some self.old.written) (Some self.new.written) result piece.now }
        ensures failed { OnErr result (Rose self.old.calls.failed self.new.calls.failed) }
        ensures counts { self.old.calls.failed ≤ self.new.calls.failed }
        ensures well { OnOk result (self.new.calls.failed ≡ self.old.calls.failed) }
        // Exactly the planned writes fail, and those for which there is no room.
        ensures fails { IsErr result ↔ (FailsNext self.old.calls ⊎ ((self.old.room ≡ 0) × (0 < length piece.now))) }
        // The others take as much as the piece, the chunk and the room allow.
        ensures count { IfOk result (λ k. k ≡ count_written self.old (length piece.now)) }
        ensures room { self.new.room + length self.new.written ≡ self.old.room + length self.old.written }
        ensures handed { self.new.handed ≡ self.old.handed }
        ensures chunk { self.new.chunk ≡ self.old.chunk }
        ensures calls { MatchResult result
            (λ _. self.new.calls ≡ called self.old.calls)
            (λ _. self.new.calls ≡ called_in_vain self.old.calls) }
    {
        if self.calls.next_fails() {
            return Err(Failed);
        }
        if self.room == 0 && !piece.is_empty() {
            self.calls.fail_unplanned();
            return Err(Failed);
        }
        let count = piece.len().min(self.chunk).min(self.room);
        let _ = self.bytes.extend_from_slice(&piece[..count]);
        self.room -= count;
        Ok(count)
    }

    fn finish(&mut self) -> Result<(), Failed>
        ensures bytes { Keeps (Some self.old.written) (Some self.new.written) }
        ensures handed { OnOk result (HandsOnAll (Some (take self.new.handed self.new.written)) (Some self.new.written)) }
        ensures failed { OnErr result (Rose self.old.calls.failed self.new.calls.failed) }
        ensures counts { self.old.calls.failed ≤ self.new.calls.failed }
        ensures well { OnOk result (self.new.calls.failed ≡ self.old.calls.failed) }
        // Exactly the planned calls fail.
        ensures fails { IsErr result ↔ FailsNext self.old.calls }
        ensures unhanded { OnErr result (self.new.handed ≡ self.old.handed) }
        ensures room { self.new.room ≡ self.old.room }
        ensures chunk { self.new.chunk ≡ self.old.chunk }
        ensures calls { MatchResult result
            (λ _. self.new.calls ≡ called self.old.calls)
            (λ _. self.new.calls ≡ called_in_vain self.old.calls) }
    {
        if self.calls.next_fails() {
            return Err(Failed);
        }
        self.handed = self.bytes.len();
        Ok(())
    }
}
