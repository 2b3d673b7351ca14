ghost use Rattle.std.specs.Prelude.{◌≡◌, ◌<◌};

use dsm_words::item::Item;
use dsm_words::layout::Layout;
use dsm_words::op::Op;
use dsm_words::phase::Phase;
use dsm_words::turn::Turn;

/// Stores that a node shares a page, and no longer claims it.
#[derive(Clone, Copy)]
pub struct Withdraw {
    lay: Layout,
    n: u32,
    g: u32,
    over: bool,
    ghost n_in: { n < lay.t.nodes },
    ghost g_in: { g < lay.pages },
}

impl Withdraw {
    ghost use Rattle.dsm_words.specs.Place.{lay_of};
    ghost use Rattle.dsm_directory.specs.Directory.{withdraw_script};
    ghost use Rattle.dsm_directory.specs.Rests.{withdraw_rest, withdraw_lay};

    /// Of node `n` and page `g`.
    pub fn new(lay: Layout, n: u32, g: u32) -> Withdraw
        requires n { n < lay.t.nodes }
        requires g { g < lay.pages }
        ensures rest { withdraw_rest result ≡ withdraw_script n g }
        ensures lay { withdraw_lay result ≡ lay_of lay }
    {
        Withdraw {
            lay,
            n,
            g,
            over: false,
        }
    }
}

impl Phase for Withdraw {
    ghost use Rattle.dsm_directory.specs.Rests.{withdraw_rest, withdraw_lay};

    type Out = ();

    ghost lay = { withdraw_lay };

    ghost rest = { withdraw_rest };

    fn next(&self) -> Op {
        let at = self.lay.place(Item::Dir {
            n: self.n,
            g: self.g,
        });
        Op::Store { at, v: 1 }
    }

    fn after(&mut self, _got: u64) -> Turn<()> {
        self.over = true;
        Turn::Done(())
    }
}
