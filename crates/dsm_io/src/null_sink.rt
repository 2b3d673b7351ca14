ghost use Rattle.std.specs.Prelude.{◌≡◌, ◌<◌, ◌≤◌, None, length, IfOk, IsOk, OnErr};
ghost use Rattle.std.specs.Io.KnownBytes.{Keeps, WriteAppends};
ghost use Rattle.dsm_io.specs.Faults.{Rose};

use crate::sink::Sink;
use crate::source::Failed;

/// A sink that takes every piece whole, keeps nothing, tells no bytes and never fails.
#[derive(Drop)]
pub struct NullSink;

impl NullSink {
    /// The sink. It takes no memory.
    pub fn new() -> NullSink {
        NullSink
    }
}

impl Sink for NullSink {
    ghost written = { λ _. None };

    ghost handed = { λ _. None };

    ghost faults = { λ _. 0 };

    fn write(&mut self, piece: &[u8]) -> Result<usize, Failed>
        ensures bound { IfOk result (λ k. k ≤ length piece.now) }
        ensures progress { 0 < length piece.now → IfOk result (λ k. 0 < k) }
        ensures bytes { WriteAppends None None result piece.now }
        ensures failed { OnErr result (Rose 0 0) }
        ensures sure { IsOk result }
        // It takes every piece whole.
        ensures count { IfOk result (λ k. k ≡ length piece.now) }
    {
        Ok(piece.len())
    }

    fn finish(&mut self) -> Result<(), Failed>
        ensures bytes { Keeps None None }
        ensures failed { OnErr result (Rose 0 0) }
        ensures sure { IsOk result }
    {
        Ok(())
    }
}
