ghost use Rattle.std.specs.Prelude.{◌≡◌, ◌<◌, ◌↔◌, IsSome, IfSome};

use std::marker::Model;

/// How many registers a processor has.
pub const REGISTERS: usize = 16;

/// The number of a register, 0 to 15.
#[derive(Clone, Copy, Debug, PartialEq, Eq)]
pub struct Reg {
    number: u8,
}

impl Model for Reg {
    ghost use Rattle.std.specs.Prelude.{ℕ, ◌<◌};

    ghost Value = { ℕ };

    ghost view = { λ r. r.number };

    ghost invariant = { λ r. r.number < 16 };

    ghost inverse = { λ n. record { number = n } };
}

impl Reg {
    /// Register `k`, and None exactly where `k` is above 15.
    pub fn new(k: u32) -> Option<Reg>
        ensures some { IsSome result ↔ (k < 16) }
        ensures value { IfSome result (λ r. r ≡ k) }
    {
        if k < 16 {
            Some(Reg { number: k as u8 })
        } else {
            None
        }
    }

    /// Its number, as an index into the registers.
    pub fn index(self) -> usize
        ensures value { result ≡ self }
        ensures within { result < 16 }
    {
        self.number as usize
    }
}
