ghost use Rattle.std.specs.Prelude.{◌≡◌, ◌<◌};

use dsm_words::item::Item;
use dsm_words::layout::Layout;
use dsm_words::op::Op;
use dsm_words::phase::Phase;
use dsm_words::turn::Turn;

/// How far an overwrite has come with its word.
#[derive(Clone, Copy)]
enum Point {
    Load,
    Store,
    Over,
}

/// Gets all words of a page: each is loaded at home and stored in the node's frame, where nothing is kept.
#[derive(Clone, Copy)]
pub struct Overwrite {
    lay: Layout,
    n: u32,
    g: u32,
    i: u32,
    at: Point,
    /// What was loaded of word `i`, where it was.
    v: u64,
    ghost n_in: { n < lay.t.nodes },
    ghost g_in: { g < lay.pages },
    ghost i_in: { i < lay.words },
}

const _: () = prove!(size_of::<Overwrite>() <= 128);

impl Overwrite {
    ghost use Rattle.dsm_words.specs.Place.{lay_of, home};
    ghost use Rattle.dsm_words.specs.Script.{turn_of};
    ghost use Rattle.dsm_incoming.specs.Getting.{overwrite_script, overwrite_rest, overwrite_lay, overwrite_behind};

    /// To node n's frame of page `g`, from the home that the layout has for it.
    #[tactic(auto, using(dsm_words::proofs::Loops::all_remain))]
    pub fn new(lay: Layout, n: u32, g: u32) -> Overwrite
        requires n { n < lay.t.nodes }
        requires g { g < lay.pages }
        ensures rest { overwrite_rest result ≡ overwrite_script (lay_of lay) n g (home lay g) }
        ensures lay { overwrite_lay result ≡ lay_of lay }
    {
        Overwrite {
            lay,
            n,
            g,
            i: 0,
            at: Point::Load,
            v: 0,
        }
    }

    /// Goes to the next word, where there is one.
    #[tactic(auto, using(dsm_words::proofs::Loops::one_less))]
    fn go_on(&mut self) -> Turn<()>
        ensures rest { overwrite_rest self.new ≡ overwrite_behind self.old }
        ensures turn { result ≡ turn_of (overwrite_behind self.old) }
        ensures lay { overwrite_lay self.new ≡ overwrite_lay self.old }
    {
        if self.i + 1 < self.lay.words {
            self.i += 1;
            self.at = Point::Load;
            return Turn::More;
        }
        self.at = Point::Over;
        Turn::Done(())
    }
}

impl Phase for Overwrite {
    ghost use Rattle.dsm_incoming.specs.Getting.{overwrite_rest, overwrite_lay};

    type Out = ();

    ghost lay = { overwrite_lay };

    ghost rest = { overwrite_rest };

    fn next(&self) -> Op {
        let (n, g, i) = (self.n, self.g, self.i);
        match self.at {
            Point::Load => Op::Load {
                at: self.lay.place(Item::Frame {
                    n: self.lay.home(g),
                    g,
                    i,
                }),
            },
            Point::Store => Op::Store {
                at: self.lay.place(Item::Frame { n, g, i }),
                v: self.v,
            },
            Point::Over => unreachable!(),
        }
    }

    fn after(&mut self, got: u64) -> Turn<()> {
        match self.at {
            Point::Load => {
                self.v = got;
                self.at = Point::Store;
                Turn::More
            }
            Point::Store => self.go_on(),
            Point::Over => unreachable!(),
        }
    }
}
