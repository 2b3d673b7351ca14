ghost use Rattle.std.specs.Prelude.{◌≡◌, ℕ, ◌≤◌, List, Option, length, IfOk, OnOk, OnErr};
ghost use Rattle.std.specs.Io.KnownBytes.{ReadConsumes};
ghost use Rattle.dsm_io.specs.Faults.{Rose};

/// A read, a write or a finish that didn't take place.
#[derive(Clone, Copy, Debug, PartialEq, Eq)]
pub struct Failed;

/// What gives bytes, in order, until it has none left.
pub trait Source {
    // The bytes that it has left, where it tells them.
    ghost left: { Self → Option (List ℕ) };

    // How often it failed so far. The count stops at 2^64 - 1.
    ghost faults: { Self → ℕ };

    /// Moves the next bytes to the front of `buf`, and answers how many. `Ok(0)` into a buffer that is
    /// not empty means the end. At `Failed` no byte was taken. A read that went well is no fault.
    fn read(&mut self, buf: &mut [u8]) -> Result<usize, Failed>
        ensures bound { IfOk result (λ k. k ≤ length buf.new) }
        ensures bytes { ReadConsumes (left self.old) (left self.new) result buf.new }
        ensures failed { OnErr result (Rose (faults self.old) (faults self.new)) }
        ensures counts { faults self.old ≤ faults self.new }
        ensures well { OnOk result (faults self.new ≡ faults self.old) };
}
