ghost use Rattle.std.specs.Prelude.{◌≡◌, ◌+◌, ◌*◌, ◌<◌};

use dsm_words::item::Item;
use dsm_words::layout::Layout;
use dsm_words::op::Op;
use dsm_words::pages::bit_of;
use dsm_words::phase::Phase;
use dsm_words::turn::Turn;

/// How far a break has come: with its processor, with its word, of which the frame has `v`, or behind them all.
#[derive(Clone, Copy)]
enum Point {
    LoadMap,
    OrNle,
    LoadFrame,
    StoreTwin { v: u64 },
    StoreMaster { v: u64 },
    StoreTwined,
    StoreDir,
    Over,
}

/// Breaks a node's exclusive mode: tells each of its processors that may write the page to flush it later, stores its
/// frame in its twin and in the home's frame, and then that it has a twin and shares the page. At home there is nothing
/// to send.
#[derive(Clone, Copy)]
pub struct Break {
    lay: Layout,
    m: u32,
    g: u32,
    /// The processor, and how many of the node's come behind it.
    q: u32,
    behind: u32,
    /// The word.
    i: u32,
    at: Point,
    ghost m_in: { m < lay.t.nodes },
    ghost g_in: { g < lay.pages },
    ghost q_in: { q + behind < lay.t.nodes * lay.t.procs },
    ghost i_in: { i < lay.words },
}

const _: () = prove!(size_of::<Break>() <= 128);

impl Break {
    ghost use Rattle.dsm_words.specs.declared.turn.Turn.TheVariants.{More};
    ghost use Rattle.dsm_words.specs.Place.{lay_of, home};
    ghost use Rattle.dsm_words.specs.Script.{turn_of};
    ghost use Rattle.dsm_exclusive.specs.Breaking.{break_script, break_rest, break_lay, maps_behind, words_behind};

    /// Of node m for page `g`, to the home that the layout has for it.
    #[tactic(auto, using(dsm_words::proofs::Loops::suc_less, dsm_words::proofs::Loops::row_in))]
    pub fn new(lay: Layout, m: u32, g: u32) -> Break
        requires m { m < lay.t.nodes }
        requires g { g < lay.pages }
        ensures rest { break_rest result ≡ break_script (lay_of lay) m g (home lay g) }
        ensures lay { break_lay result ≡ lay_of lay }
    {
        Break {
            lay,
            m,
            g,
            q: m * lay.t.procs,
            behind: lay.t.procs - 1,
            i: 0,
            at: Point::LoadMap,
        }
    }

    /// Goes to the node's next processor, where there is one, or else to the words.
    #[tactic(auto, using(dsm_words::proofs::Loops::suc_less, dsm_words::proofs::Loops::all_remain))]
    fn next_processor(&mut self)
        ensures rest { break_rest self.new ≡ maps_behind self.old }
        ensures more { turn_of (break_rest self.new) ≡ More }
        ensures lay { break_lay self.new ≡ break_lay self.old }
    {
        if self.behind > 0 {
            self.q += 1;
            self.behind -= 1;
            self.at = Point::LoadMap;
            return;
        }
        self.i = 0;
        self.at = if self.m == self.lay.home(self.g) {
            Point::StoreDir
        } else {
            Point::LoadFrame
        };
    }

    /// Goes to the next word, where there is one.
    #[tactic(auto, using(dsm_words::proofs::Loops::one_less))]
    fn next_word(&mut self)
        ensures rest { break_rest self.new ≡ words_behind self.old }
        ensures more { turn_of (break_rest self.new) ≡ More }
        ensures lay { break_lay self.new ≡ break_lay self.old }
    {
        if self.i + 1 < self.lay.words {
            self.i += 1;
            self.at = Point::LoadFrame;
            return;
        }
        self.at = Point::StoreTwined;
    }
}

impl Phase for Break {
    ghost use Rattle.dsm_exclusive.specs.Breaking.{break_rest, break_lay};

    type Out = ();

    ghost lay = { break_lay };

    ghost rest = { break_rest };

    fn next(&self) -> Op {
        let (n, g, i) = (self.m, self.g, self.i);
        match self.at {
            Point::LoadMap => Op::Load {
                at: self.lay.place(Item::Map { p: self.q, g }),
            },
            Point::OrNle => Op::Or {
                at: self.lay.place(Item::Nle {
                    p: self.q,
                    k: g / 64,
                }),
                bits: bit_of(g),
            },
            Point::LoadFrame => Op::Load {
                at: self.lay.place(Item::Frame { n, g, i }),
            },
            Point::StoreTwin { v } => Op::Store {
                at: self.lay.place(Item::Twin { n, g, i }),
                v,
            },
            Point::StoreMaster { v } => Op::Store {
                at: self.lay.place(Item::Frame {
                    n: self.lay.home(g),
                    g,
                    i,
                }),
                v,
            },
            Point::StoreTwined => Op::Store {
                at: self.lay.place(Item::Twined { n, g }),
                v: 1,
            },
            Point::StoreDir => Op::Store {
                at: self.lay.place(Item::Dir { n, g }),
                v: 1,
            },
            Point::Over => unreachable!(),
        }
    }

    fn after(&mut self, got: u64) -> Turn<()> {
        match self.at {
            Point::LoadMap => {
                if got == 2 {
                    self.at = Point::OrNle;
                } else {
                    self.next_processor();
                }
            }
            Point::OrNle => self.next_processor(),
            Point::LoadFrame => self.at = Point::StoreTwin { v: got },
            Point::StoreTwin { v } => self.at = Point::StoreMaster { v },
            Point::StoreMaster { v: _ } => self.next_word(),
            Point::StoreTwined => self.at = Point::StoreDir,
            Point::StoreDir => {
                self.at = Point::Over;
                return Turn::Done(());
            }
            Point::Over => unreachable!(),
        }
        Turn::More
    }
}
