ghost use Rattle.std.specs.Prelude.{◌≡◌, ◌<◌};

use dsm_words::item::Item;
use dsm_words::layout::Layout;
use dsm_words::op::Op;
use dsm_words::phase::Phase;
use dsm_words::turn::Turn;

/// Frees a lock.
#[derive(Clone, Copy)]
pub struct Unlock {
    lay: Layout,
    l: u32,
    k: u64,
    over: bool,
    ghost l_in: { l < lay.locks },
}

impl Unlock {
    ghost use Rattle.dsm_words.specs.Place.{lay_of};
    ghost use Rattle.dsm_sync.specs.Locks.{unlock_script, unlock_rest, unlock_lay};

    /// Lock `l`, which was passed with count `k`: this is its unlock number k, from 0.
    pub fn new(lay: Layout, l: u32, k: u64) -> Unlock
        requires { l < lay.locks }
        ensures rest { unlock_rest result ≡ unlock_script l k }
        ensures lay { unlock_lay result ≡ lay_of lay }
    {
        Unlock {
            lay,
            l,
            k,
            over: false,
        }
    }
}

impl Phase for Unlock {
    ghost use Rattle.dsm_sync.specs.Locks.{unlock_rest, unlock_lay};

    type Out = ();

    ghost lay = { unlock_lay };

    ghost rest = { unlock_rest };

    fn next(&self) -> Op {
        Op::Store {
            at: self.lay.place(Item::Lock { l: self.l }),
            v: self.k.wrapping_mul(2).wrapping_add(2),
        }
    }

    fn after(&mut self, _got: u64) -> Turn<()> {
        self.over = true;
        Turn::Done(())
    }
}
