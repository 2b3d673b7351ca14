ghost use Rattle.std.specs.Prelude.{◌≡◌, ◌<◌};

use dsm_words::item::Item;
use dsm_words::layout::Layout;
use dsm_words::op::Op;
use dsm_words::phase::Phase;
use dsm_words::turn::Turn;

/// How far it has come with its word: before the load, before the store of what it gave, or behind all words.
#[derive(Clone, Copy)]
enum MakePoint {
    Frame,
    Twin { v: u64 },
    Twined,
    Over,
}

/// Makes a node's twin of a page, a copy of its frame.
#[derive(Clone, Copy)]
pub struct MakeTwin {
    lay: Layout,
    n: u32,
    g: u32,
    i: u32,
    at: MakePoint,
    ghost n_in: { n < lay.t.nodes },
    ghost g_in: { g < lay.pages },
    ghost i_in: { i < lay.words },
}

impl MakeTwin {
    ghost use Rattle.std.specs.Prelude.{true};
    ghost use Rattle.dsm_words.specs.Place.{lay_of};
    ghost use Rattle.dsm_words.specs.Script.{is_open, turn_of};
    ghost use Rattle.dsm_twin.specs.Rests.{make_rest, make_lay, make_left};
    ghost use Rattle.dsm_twin.specs.Twins.{make_twin_script};

    /// Of node `n` and page `g`.
    #[tactic(auto, using(dsm_words::proofs::Loops::all_remain))]
    pub fn new(lay: Layout, n: u32, g: u32) -> MakeTwin
        requires n { n < lay.t.nodes }
        requires g { g < lay.pages }
        ensures rest { make_rest result ≡ make_twin_script (lay_of lay) n g }
        ensures open { is_open (make_rest result) ≡ true }
        ensures lay { make_lay result ≡ lay_of lay }
    {
        MakeTwin {
            lay,
            n,
            g,
            i: 0,
            at: MakePoint::Frame,
        }
    }

    /// To the next word, where there is one.
    #[tactic(auto, using(dsm_words::proofs::Loops::one_less))]
    fn go_on(&mut self) -> Turn<()>
        ensures rest { make_rest self.new ≡ make_left self.old }
        ensures turn { result ≡ turn_of (make_rest self.new) }
        ensures lay { make_lay self.new ≡ make_lay self.old }
    {
        if self.i + 1 < self.lay.words {
            self.i += 1;
            self.at = MakePoint::Frame;
        } else {
            self.at = MakePoint::Twined;
        }
        Turn::More
    }
}

impl Phase for MakeTwin {
    ghost use Rattle.dsm_twin.specs.Rests.{make_rest, make_lay};

    type Out = ();

    ghost lay = { make_lay };

    ghost rest = { make_rest };

    fn next(&self) -> Op {
        let (n, g, i) = (self.n, self.g, self.i);
        match self.at {
            MakePoint::Frame => Op::Load {
                at: self.lay.place(Item::Frame { n, g, i }),
            },
            MakePoint::Twin { v } => Op::Store {
                at: self.lay.place(Item::Twin { n, g, i }),
                v,
            },
            MakePoint::Twined => Op::Store {
                at: self.lay.place(Item::Twined { n, g }),
                v: 1,
            },
            MakePoint::Over => unreachable!(),
        }
    }

    fn after(&mut self, got: u64) -> Turn<()> {
        match self.at {
            MakePoint::Frame => self.at = MakePoint::Twin { v: got },
            MakePoint::Twin { v: _ } => return self.go_on(),
            MakePoint::Twined => {
                self.at = MakePoint::Over;
                return Turn::Done(());
            }
            MakePoint::Over => unreachable!(),
        }
        Turn::More
    }
}
