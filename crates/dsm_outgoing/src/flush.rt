ghost use Rattle.std.specs.Prelude.{◌≡◌, ◌<◌};

use dsm_words::item::Item;
use dsm_words::layout::Layout;
use dsm_words::op::Op;
use dsm_words::phase::Phase;
use dsm_words::turn::Turn;

/// How far a flush has come with its word, of which the frame has `v`.
#[derive(Clone, Copy)]
enum Point {
    LoadFrame,
    LoadTwin { v: u64 },
    StoreTwin { v: u64 },
    StoreMaster { v: u64 },
    Over,
}

/// Sends home the words of a page that differ from its twin: each is stored in the twin, and then in the home's frame.
#[derive(Clone, Copy)]
pub struct Flush {
    lay: Layout,
    n: u32,
    g: u32,
    i: u32,
    at: Point,
    ghost n_in: { n < lay.t.nodes },
    ghost g_in: { g < lay.pages },
    ghost i_in: { i < lay.words },
}

const _: () = prove!(size_of::<Flush>() <= 128);

impl Flush {
    ghost use Rattle.dsm_words.specs.Place.{lay_of, home};
    ghost use Rattle.dsm_words.specs.Script.{turn_of};
    ghost use Rattle.dsm_outgoing.specs.Sending.{flush_script, flush_rest, flush_lay, flush_behind};

    /// Of node n's frame of page `g`, to the home that the layout has for it.
    #[tactic(auto, using(dsm_words::proofs::Loops::all_remain))]
    pub fn new(lay: Layout, n: u32, g: u32) -> Flush
        requires n { n < lay.t.nodes }
        requires g { g < lay.pages }
        ensures rest { flush_rest result ≡ flush_script (lay_of lay) n g (home lay g) }
        ensures lay { flush_lay result ≡ lay_of lay }
    {
        Flush {
            lay,
            n,
            g,
            i: 0,
            at: Point::LoadFrame,
        }
    }

    /// Goes to the next word, where there is one.
    #[tactic(auto, using(dsm_words::proofs::Loops::one_less))]
    fn go_on(&mut self) -> Turn<()>
        ensures rest { flush_rest self.new ≡ flush_behind self.old }
        ensures turn { result ≡ turn_of (flush_behind self.old) }
        ensures lay { flush_lay self.new ≡ flush_lay self.old }
    {
        if self.i + 1 < self.lay.words {
            self.i += 1;
            self.at = Point::LoadFrame;
            return Turn::More;
        }
        self.at = Point::Over;
        Turn::Done(())
    }
}

impl Phase for Flush {
    ghost use Rattle.dsm_outgoing.specs.Sending.{flush_rest, flush_lay};

    type Out = ();

    ghost lay = { flush_lay };

    ghost rest = { flush_rest };

    fn next(&self) -> Op {
        let (n, g, i) = (self.n, self.g, self.i);
        match self.at {
            Point::LoadFrame => Op::Load {
                at: self.lay.place(Item::Frame { n, g, i }),
            },
            Point::LoadTwin { v: _ } => Op::Load {
                at: self.lay.place(Item::Twin { n, g, i }),
            },
            Point::StoreTwin { v } => Op::Store {
                at: self.lay.place(Item::Twin { n, g, i }),
                v,
            },
            Point::StoreMaster { v } => Op::Store {
                at: self.lay.place(Item::Frame {
                    n: self.lay.home(g),
                    g,
                    i,
                }),
                v,
            },
            Point::Over => unreachable!(),
        }
    }

    fn after(&mut self, got: u64) -> Turn<()> {
        match self.at {
            Point::LoadFrame => self.at = Point::LoadTwin { v: got },
            Point::LoadTwin { v } => {
                if v == got {
                    return self.go_on();
                }
                self.at = Point::StoreTwin { v };
            }
            Point::StoreTwin { v } => self.at = Point::StoreMaster { v },
            Point::StoreMaster { v: _ } => return self.go_on(),
            Point::Over => unreachable!(),
        }
        Turn::More
    }
}
