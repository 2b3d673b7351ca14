ghost use Rattle.std.specs.Prelude.{◌≡◌, ◌<◌};

use dsm_words::item::Item;
use dsm_words::layout::Layout;
use dsm_words::op::Op;
use dsm_words::phase::Phase;
use dsm_words::turn::Turn;

/// How far a merge has come with its word, of which the master has `v`.
#[derive(Clone, Copy)]
enum Point {
    LoadMaster,
    LoadTwin { v: u64 },
    StoreFrame { v: u64 },
    StoreTwin { v: u64 },
    Over,
}

/// Gets the words of a page that changed at home since the twin was made or refreshed: each is stored in the node's
/// frame, and then in its twin. A word that has not changed there is left as the node has it, since its own processors
/// may have written it.
#[derive(Clone, Copy)]
pub struct Merge {
    lay: Layout,
    n: u32,
    g: u32,
    i: u32,
    at: Point,
    ghost n_in: { n < lay.t.nodes },
    ghost g_in: { g < lay.pages },
    ghost i_in: { i < lay.words },
}

const _: () = prove!(size_of::<Merge>() <= 128);

impl Merge {
    ghost use Rattle.dsm_words.specs.Place.{lay_of, home};
    ghost use Rattle.dsm_words.specs.Script.{turn_of};
    ghost use Rattle.dsm_incoming.specs.Getting.{merge_script, merge_rest, merge_lay, merge_behind};

    /// To node n's frame of page `g`, from the home that the layout has for it.
    #[tactic(auto, using(dsm_words::proofs::Loops::all_remain))]
    pub fn new(lay: Layout, n: u32, g: u32) -> Merge
        requires n { n < lay.t.nodes }
        requires g { g < lay.pages }
        ensures rest { merge_rest result ≡ merge_script (lay_of lay) n g (home lay g) }
        ensures lay { merge_lay result ≡ lay_of lay }
    {
        Merge {
            lay,
            n,
            g,
            i: 0,
            at: Point::LoadMaster,
        }
    }

    /// Goes to the next word, where there is one.
    #[tactic(auto, using(dsm_words::proofs::Loops::one_less))]
    fn go_on(&mut self) -> Turn<()>
        ensures rest { merge_rest self.new ≡ merge_behind self.old }
        ensures turn { result ≡ turn_of (merge_behind self.old) }
        ensures lay { merge_lay self.new ≡ merge_lay self.old }
    {
        if self.i + 1 < self.lay.words {
            self.i += 1;
            self.at = Point::LoadMaster;
            return Turn::More;
        }
        self.at = Point::Over;
        Turn::Done(())
    }
}

impl Phase for Merge {
    ghost use Rattle.dsm_incoming.specs.Getting.{merge_rest, merge_lay};

    type Out = ();

    ghost lay = { merge_lay };

    ghost rest = { merge_rest };

    fn next(&self) -> Op {
        let (n, g, i) = (self.n, self.g, self.i);
        match self.at {
            Point::LoadMaster => Op::Load {
                at: self.lay.place(Item::Frame {
                    n: self.lay.home(g),
                    g,
                    i,
                }),
            },
            Point::LoadTwin { v: _ } => Op::Load {
                at: self.lay.place(Item::Twin { n, g, i }),
            },
            Point::StoreFrame { v } => Op::Store {
                at: self.lay.place(Item::Frame { n, g, i }),
                v,
            },
            Point::StoreTwin { v } => Op::Store {
                at: self.lay.place(Item::Twin { n, g, i }),
                v,
            },
            Point::Over => unreachable!(),
        }
    }

    fn after(&mut self, got: u64) -> Turn<()> {
        match self.at {
            Point::LoadMaster => self.at = Point::LoadTwin { v: got },
            Point::LoadTwin { v } => {
                if v == got {
                    return self.go_on();
                }
                self.at = Point::StoreFrame { v };
            }
            Point::StoreFrame { v } => self.at = Point::StoreTwin { v },
            Point::StoreTwin { v: _ } => return self.go_on(),
            Point::Over => unreachable!(),
        }
        Turn::More
    }
}
