ghost use Rattle.std.specs.Prelude.{◌≡◌, ◌<◌};
ghost use Rattle.dsm_words.specs.Place.{lay_of};
ghost use Rattle.dsm_sync.specs.Counters.{counter_number, counters_of};

use crate::counter::Counter;
use crate::got::Got;
use dsm_words::layout::Layout;
use dsm_words::op::Op;
use dsm_words::phase::Phase;
use dsm_words::turn::Turn;

/// Looks once whether a barrier or a flag has had enough signals.
#[derive(Clone, Copy)]
pub struct Look {
    lay: Layout,
    of: Counter,
    need: u64,
    got: Option<Got>,
    ghost of_in: { counter_number of < counters_of (lay_of lay) of },
}

impl Look {
    ghost use Rattle.dsm_sync.specs.declared.counter.Counter.TheVariants.{Barrier, Flag, Close};
    ghost use Rattle.dsm_sync.specs.Counting.{look_script, look_rest, look_lay};

    /// At barrier `b`, which needs `need` arrivals.
    pub fn barrier(lay: Layout, b: u32, need: u64) -> Look
        requires { b < lay.barriers }
        ensures rest { look_rest result ≡ look_script (Barrier b) need }
        ensures lay { look_lay result ≡ lay_of lay }
    {
        Look {
            lay,
            of: Counter::Barrier { b },
            need,
            got: None,
        }
    }

    /// At flag `f`, which needs to be set `need` times.
    pub fn flag(lay: Layout, f: u32, need: u64) -> Look
        requires { f < lay.flags }
        ensures rest { look_rest result ≡ look_script (Flag f) need }
        ensures lay { look_lay result ≡ lay_of lay }
    {
        Look {
            lay,
            of: Counter::Flag { f },
            need,
            got: None,
        }
    }

    /// At the closing barrier, which needs `need` arrivals.
    pub fn close(lay: Layout, need: u64) -> Look
        ensures rest { look_rest result ≡ look_script Close need }
        ensures lay { look_lay result ≡ lay_of lay }
    {
        Look {
            lay,
            of: Counter::Close,
            need,
            got: None,
        }
    }
}

impl Phase for Look {
    ghost use Rattle.dsm_sync.specs.Counting.{look_rest, look_lay};

    type Out = Got;

    ghost lay = { look_lay };

    ghost rest = { look_rest };

    fn next(&self) -> Op {
        Op::Load {
            at: self.of.place(&self.lay),
        }
    }

    fn after(&mut self, got: u64) -> Turn<Got> {
        let found = if got < self.need {
            Got::Unready
        } else {
            Got::Ready {
                c: match self.of {
                    Counter::Flag { f: _ } => got,
                    Counter::Barrier { b: _ } => self.need,
                    Counter::Close => self.need,
                },
            }
        };
        self.got = Some(found);
        Turn::Done(found)
    }
}
