ghost use Rattle.std.specs.Prelude.{◌≡◌, ◌<◌};

use dsm_words::item::Item;
use dsm_words::layout::Layout;
use dsm_words::op::Op;
use dsm_words::phase::Phase;
use dsm_words::turn::Turn;

/// Sets a flag. The result is the number of the set, from 0.
#[derive(Clone, Copy)]
pub struct SetFlag {
    lay: Layout,
    f: u32,
    number: Option<u64>,
    ghost f_in: { f < lay.flags },
}

impl SetFlag {
    ghost use Rattle.dsm_words.specs.Place.{lay_of};
    ghost use Rattle.dsm_sync.specs.declared.counter.Counter.TheVariants.{Flag};
    ghost use Rattle.dsm_sync.specs.Counting.{signal_script, set_rest, set_lay};

    /// Flag `f`.
    pub fn new(lay: Layout, f: u32) -> SetFlag
        requires { f < lay.flags }
        ensures rest { set_rest result ≡ signal_script (Flag f) }
        ensures lay { set_lay result ≡ lay_of lay }
    {
        SetFlag {
            lay,
            f,
            number: None,
        }
    }
}

impl Phase for SetFlag {
    ghost use Rattle.dsm_sync.specs.Counting.{set_rest, set_lay};

    type Out = u64;

    ghost lay = { set_lay };

    ghost rest = { set_rest };

    fn next(&self) -> Op {
        Op::Add {
            at: self.lay.place(Item::Flag { f: self.f }),
            k: 1,
        }
    }

    fn after(&mut self, got: u64) -> Turn<u64> {
        self.number = Some(got);
        Turn::Done(got)
    }
}
