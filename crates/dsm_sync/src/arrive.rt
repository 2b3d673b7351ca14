ghost use Rattle.std.specs.Prelude.{◌≡◌, ◌<◌};
ghost use Rattle.dsm_words.specs.Place.{lay_of};
ghost use Rattle.dsm_sync.specs.Counters.{counter_number, counters_of};

use crate::counter::Counter;
use dsm_words::layout::Layout;
use dsm_words::op::Op;
use dsm_words::phase::Phase;
use dsm_words::turn::Turn;

/// Arrives at a barrier. The result is the number of the arrival, from 0.
#[derive(Clone, Copy)]
pub struct Arrive {
    lay: Layout,
    at: Counter,
    number: Option<u64>,
    ghost at_in: { counter_number at < counters_of (lay_of lay) at },
}

impl Arrive {
    ghost use Rattle.dsm_sync.specs.declared.counter.Counter.TheVariants.{Barrier, Close};
    ghost use Rattle.dsm_sync.specs.Counting.{signal_script, arrive_rest, arrive_lay};

    /// At barrier `b`.
    pub fn barrier(lay: Layout, b: u32) -> Arrive
        requires { b < lay.barriers }
        ensures rest { arrive_rest result ≡ signal_script (Barrier b) }
        ensures lay { arrive_lay result ≡ lay_of lay }
    {
        Arrive {
            lay,
            at: Counter::Barrier { b },
            number: None,
        }
    }

    /// At the closing barrier.
    pub fn close(lay: Layout) -> Arrive
        ensures rest { arrive_rest result ≡ signal_script Close }
        ensures lay { arrive_lay result ≡ lay_of lay }
    {
        Arrive {
            lay,
            at: Counter::Close,
            number: None,
        }
    }
}

impl Phase for Arrive {
    ghost use Rattle.dsm_sync.specs.Counting.{arrive_rest, arrive_lay};

    type Out = u64;

    ghost lay = { arrive_lay };

    ghost rest = { arrive_rest };

    fn next(&self) -> Op {
        Op::Add {
            at: self.at.place(&self.lay),
            k: 1,
        }
    }

    fn after(&mut self, got: u64) -> Turn<u64> {
        self.number = Some(got);
        Turn::Done(got)
    }
}
