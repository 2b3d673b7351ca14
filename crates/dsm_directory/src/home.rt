ghost use Rattle.std.specs.Prelude.{◌≡◌, ◌-◌, ◌%◌, ◌<◌};

use dsm_words::item::Item;
use dsm_words::layout::Layout;
use dsm_words::op::Op;
use dsm_words::phase::Phase;
use dsm_words::turn::Turn;

/// How far it has come: before the load, before the exchange, or at its end with the home.
#[derive(Clone, Copy)]
enum HomePoint {
    Look,
    Take,
    Over { h: u32 },
}

/// Finds the home of a page. Where there is none yet, its node becomes the home, unless another one did meanwhile.
#[derive(Clone, Copy)]
pub struct FindHome {
    lay: Layout,
    n: u32,
    g: u32,
    at: HomePoint,
    ghost n_in: { n < lay.t.nodes },
    ghost g_in: { g < lay.pages },
}

impl FindHome {
    ghost use Rattle.dsm_words.specs.Place.{lay_of};
    ghost use Rattle.dsm_directory.specs.Rests.{home_rest, home_lay};
    ghost use Rattle.dsm_directory.specs.Homes.{find_home_script};

    /// For node `n` and page `g`.
    pub fn new(lay: Layout, n: u32, g: u32) -> FindHome
        requires n { n < lay.t.nodes }
        requires g { g < lay.pages }
        ensures rest { home_rest result ≡ find_home_script (lay_of lay) n g }
        ensures lay { home_lay result ≡ lay_of lay }
    {
        FindHome {
            lay,
            n,
            g,
            at: HomePoint::Look,
        }
    }

    /// The node that the home's word names.
    fn named(&self, word: u64) -> u32
        requires { 0 < word }
        ensures value { result ≡ (word - 1) % self.now.lay.t.nodes }
        ensures within { result < self.now.lay.t.nodes }
    {
        ((word - 1) % u64::from(self.lay.t.nodes)) as u32
    }
}

impl Phase for FindHome {
    ghost use Rattle.std.specs.Prelude.{ℕ, true};
    ghost use Rattle.dsm_words.specs.declared.turn.Turn.TheVariants.{Done};
    ghost use Rattle.dsm_words.specs.Script.{step, turn_of, is_open};
    ghost use Rattle.dsm_directory.specs.Rests.{home_rest, home_lay};

    type Out = u32;

    ghost lay = { home_lay };

    ghost rest = { home_rest };

    fn next(&self) -> Op {
        let at = self.lay.place(Item::Home { g: self.g });
        match self.at {
            HomePoint::Look => Op::Load { at },
            HomePoint::Take => Op::Exchange {
                at,
                old: 0,
                new: u64::from(self.n) + 1,
            },
            HomePoint::Over { h: _ } => unreachable!(),
        }
    }

    fn after(&mut self, got: u64) -> Turn<u32>
        requires { is_open (home_rest self.old) ≡ true }
        ensures rest { home_rest self.new ≡ step (home_rest self.old) got }
        ensures turn { result ≡ turn_of (home_rest self.new) }
        ensures lay { home_lay self.new ≡ home_lay self.old }
        ensures home { (h : ℕ) → result ≡ Done h → h < (home_lay self.old).nodes }
    {
        let h = match self.at {
            HomePoint::Look => {
                if got == 0 {
                    self.at = HomePoint::Take;
                    return Turn::More;
                }
                self.named(got)
            }
            // Where the exchange was lost, another node is the home.
            HomePoint::Take => { if got > 0 { self.named(got) } else { self.n } }
            HomePoint::Over { h: _ } => unreachable!(),
        };
        self.at = HomePoint::Over { h };
        Turn::Done(h)
    }
}
