ghost use Rattle.std.specs.Prelude.{◌≡◌, ◌≤◌, ◌↔◌, IsTrue, MatchBool};
ghost use Rattle.dsm_io.specs.Memory.{FailsNext, called, called_in_vain, one_more};

use std::marker::Model;

/// The calls of a stream in memory: which are to fail, how many were made, how many failed.
#[derive(Drop)]
pub struct PlannedCalls {
    fail: Vec<u64>,
    made: u64,
    failed: u64,
}

impl Model for PlannedCalls {
    ghost use Rattle.dsm_io.specs.Memory.{Calls};

    ghost Value = { Calls };

    ghost view = { λ c. record { fail = c.fail.items; made = c.made; failed = c.failed } };
}

impl PlannedCalls {
    /// No call yet. The calls whose numbers, from 1, stand in `fail` are to fail.
    pub fn new(fail: Vec<u64>) -> PlannedCalls
        ensures { result ≡ record { fail = fail.items; made = 0; failed = 0 } }
    {
        PlannedCalls {
            fail,
            made: 0,
            failed: 0,
        }
    }

    /// One call more: whether it is to fail. A call that fails is counted as failed.
    pub fn next_fails(&mut self) -> bool
        ensures fails { IsTrue result ↔ FailsNext self.old }
        ensures calls { MatchBool result (self.new ≡ called_in_vain self.old) (self.new ≡ called self.old) }
        ensures counts { self.old.failed ≤ self.new.failed }
    {
        let fails = match self.made.checked_add(1) {
            Some(number) => {
                self.made = number;
                self.fail.contains(&number)
            }
            None => false,
        };
        if fails {
            self.failed = self.failed.saturating_add(1);
        }
        fails
    }

    /// The call that was made last failed, though it wasn't planned.
    pub fn fail_unplanned(&mut self)
        ensures calls { self.new ≡ record self.old { failed = one_more self.old.failed } }
        ensures counts { self.old.failed ≤ self.new.failed }
    {
        self.failed = self.failed.saturating_add(1);
    }
}
