ghost use Rattle.std.specs.Prelude.{◌≡◌, ◌<◌};

use dsm_words::item::Item;
use dsm_words::layout::Layout;
use dsm_words::op::Op;
use dsm_words::phase::Phase;
use dsm_words::turn::Turn;

/// Stores that a node claims a page: it is about to have it alone.
#[derive(Clone, Copy)]
pub struct Claim {
    lay: Layout,
    n: u32,
    g: u32,
    over: bool,
    ghost n_in: { n < lay.t.nodes },
    ghost g_in: { g < lay.pages },
}

impl Claim {
    ghost use Rattle.dsm_words.specs.Place.{lay_of};
    ghost use Rattle.dsm_directory.specs.Directory.{claim_script};
    ghost use Rattle.dsm_directory.specs.Rests.{claim_rest, claim_lay};

    /// Of node `n` and page `g`.
    pub fn new(lay: Layout, n: u32, g: u32) -> Claim
        requires n { n < lay.t.nodes }
        requires g { g < lay.pages }
        ensures rest { claim_rest result ≡ claim_script n g }
        ensures lay { claim_lay result ≡ lay_of lay }
    {
        Claim {
            lay,
            n,
            g,
            over: false,
        }
    }
}

impl Phase for Claim {
    ghost use Rattle.dsm_directory.specs.Rests.{claim_rest, claim_lay};

    type Out = ();

    ghost lay = { claim_lay };

    ghost rest = { claim_rest };

    fn next(&self) -> Op {
        let at = self.lay.place(Item::Dir {
            n: self.n,
            g: self.g,
        });
        Op::Store { at, v: 3 }
    }

    fn after(&mut self, _got: u64) -> Turn<()> {
        self.over = true;
        Turn::Done(())
    }
}
