ghost use Rattle.std.specs.Prelude.{◌≡◌, ℕ, ◌<◌, ◌≤◌, List, Option, length, IfOk, OnOk, OnErr};
ghost use Rattle.std.specs.Io.KnownBytes.{Keeps, WriteAppends};
ghost use Rattle.dsm_io.specs.Faults.{Rose};
ghost use Rattle.dsm_io.specs.Whole.{HandsOnAll};

use crate::source::Failed;

/// What takes bytes, in order.
pub trait Sink {
    // The bytes written so far, where it tells them.
    ghost written: { Self → Option (List ℕ) };

    // Those of them that it has handed on, where it tells them.
    ghost handed: { Self → Option (List ℕ) };

    // How often it failed so far. The count stops at 2^64 - 1.
    ghost faults: { Self → ℕ };

    /// Writes bytes from the front of the piece, and answers how many: at least 1 where the piece is
    /// not empty. At `Failed` nothing was written. A write that went well is no fault.
    fn write(&mut self, piece: &[u8]) -> Result<usize, Failed>
        ensures bound { IfOk result (λ k. k ≤ length piece.now) }
        ensures progress { 0 < length piece.now → IfOk result (λ k. 0 < k) }
        ensures bytes { WriteAppends (written self.old) (written self.new) result piece.now }
        ensures failed { OnErr result (Rose (faults self.old) (faults self.new)) }
        ensures counts { faults self.old ≤ faults self.new }
        ensures well { OnOk result (faults self.new ≡ faults self.old) };

    /// Ends the writing: hands on what is held back. It writes nothing of its own.
    fn finish(&mut self) -> Result<(), Failed>
        ensures bytes { Keeps (written self.old) (written self.new) }
        ensures handed { OnOk result (HandsOnAll (handed self.new) (written self.new)) }
        ensures failed { OnErr result (Rose (faults self.old) (faults self.new)) }
        ensures counts { faults self.old ≤ faults self.new }
        ensures well { OnOk result (faults self.new ≡ faults self.old) };
}
