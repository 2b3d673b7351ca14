ghost use Rattle.std.specs.Prelude.{◌≡◌, ◌<◌};

use dsm_words::item::Item;
use dsm_words::layout::Layout;
use dsm_words::op::Op;
use dsm_words::phase::Phase;
use dsm_words::turn::Turn;

/// How far it has come: before the load of the update time, or before that of the notice time.
#[derive(Clone, Copy)]
enum StalePoint {
    Update,
    Notice { update: u64 },
    Over { stale: bool },
}

/// Looks whether a node's copy of a page is out of date: it has none yet, or has heard of the page since it last brought
/// its copy up to date.
#[derive(Clone, Copy)]
pub struct Stale {
    lay: Layout,
    n: u32,
    g: u32,
    at: StalePoint,
    ghost n_in: { n < lay.t.nodes },
    ghost g_in: { g < lay.pages },
}

impl Stale {
    ghost use Rattle.dsm_words.specs.Place.{lay_of};
    ghost use Rattle.dsm_notice.specs.Notices.{stale_script};
    ghost use Rattle.dsm_notice.specs.Rests.{stale_rest, stale_lay};

    /// Of node `n` and page `g`.
    pub fn new(lay: Layout, n: u32, g: u32) -> Stale
        requires n { n < lay.t.nodes }
        requires g { g < lay.pages }
        ensures rest { stale_rest result ≡ stale_script n g }
        ensures lay { stale_lay result ≡ lay_of lay }
    {
        Stale {
            lay,
            n,
            g,
            at: StalePoint::Update,
        }
    }
}

impl Phase for Stale {
    ghost use Rattle.dsm_notice.specs.Rests.{stale_rest, stale_lay};

    type Out = bool;

    ghost lay = { stale_lay };

    ghost rest = { stale_rest };

    fn next(&self) -> Op {
        let (n, g) = (self.n, self.g);
        match self.at {
            StalePoint::Update => Op::Load {
                at: self.lay.place(Item::Update { n, g }),
            },
            StalePoint::Notice { update: _ } => Op::Load {
                at: self.lay.place(Item::Notice { n, g }),
            },
            StalePoint::Over { stale: _ } => unreachable!(),
        }
    }

    fn after(&mut self, got: u64) -> Turn<bool> {
        match self.at {
            StalePoint::Update => {
                self.at = StalePoint::Notice { update: got };
                Turn::More
            }
            StalePoint::Notice { update } => {
                let stale = update == 0 || update < got;
                self.at = StalePoint::Over { stale };
                Turn::Done(stale)
            }
            StalePoint::Over { stale: _ } => unreachable!(),
        }
    }
}
