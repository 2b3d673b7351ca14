ghost use Rattle.std.specs.Prelude.{◌≡◌, ◌%◌, ◌<◌};

use crate::got::Got;
use dsm_words::item::Item;
use dsm_words::layout::Layout;
use dsm_words::op::Op;
use dsm_words::phase::Phase;
use dsm_words::turn::Turn;

/// How far a try has come.
#[derive(Clone, Copy)]
enum Point {
    /// Before the load.
    Look,
    /// Before the exchange: the load gave `v`.
    Take { v: u64 },
    Over { got: Got },
}

/// Tries a lock once. A lock's word is `2k` where it is free after k unlocks, and `2k + 1` where it is held.
#[derive(Clone, Copy)]
pub struct LockTry {
    lay: Layout,
    l: u32,
    at: Point,
    ghost l_in: { l < lay.locks },
}

impl LockTry {
    ghost use Rattle.dsm_words.specs.Place.{lay_of};
    ghost use Rattle.dsm_sync.specs.Locks.{lock_script, lock_rest, lock_lay};

    /// One try of lock `l`.
    pub fn new(lay: Layout, l: u32) -> LockTry
        requires { l < lay.locks }
        ensures rest { lock_rest result ≡ lock_script l }
        ensures lay { lock_lay result ≡ lay_of lay }
    {
        LockTry {
            lay,
            l,
            at: Point::Look,
        }
    }
}

impl Phase for LockTry {
    ghost use Rattle.dsm_sync.specs.Locks.{lock_rest, lock_lay};

    type Out = Got;

    ghost lay = { lock_lay };

    ghost rest = { lock_rest };

    fn next(&self) -> Op {
        let at = self.lay.place(Item::Lock { l: self.l });
        match self.at {
            Point::Look => Op::Load { at },
            Point::Take { v } => Op::Exchange {
                at,
                old: v,
                new: v.wrapping_add(1),
            },
            Point::Over { got: _ } => unreachable!(),
        }
    }

    fn after(&mut self, got: u64) -> Turn<Got> {
        let found = match self.at {
            Point::Look => {
                if got % 2 == 0 {
                    self.at = Point::Take { v: got };
                    return Turn::More;
                }
                Got::Unready
            }
            Point::Take { v } => {
                if got == v {
                    Got::Ready { c: v / 2 }
                } else {
                    Got::Unready
                }
            }
            Point::Over { got: _ } => unreachable!(),
        };
        self.at = Point::Over { got: found };
        Turn::Done(found)
    }
}
