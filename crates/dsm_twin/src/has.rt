ghost use Rattle.std.specs.Prelude.{◌≡◌, ◌<◌};

use dsm_words::item::Item;
use dsm_words::layout::Layout;
use dsm_words::op::Op;
use dsm_words::phase::Phase;
use dsm_words::turn::Turn;

/// Looks whether a node has a twin of a page.
#[derive(Clone, Copy)]
pub struct HasTwin {
    lay: Layout,
    n: u32,
    g: u32,
    has: Option<bool>,
    ghost n_in: { n < lay.t.nodes },
    ghost g_in: { g < lay.pages },
}

impl HasTwin {
    ghost use Rattle.dsm_words.specs.Place.{lay_of};
    ghost use Rattle.dsm_twin.specs.Rests.{has_rest, has_lay};
    ghost use Rattle.dsm_twin.specs.Twins.{has_twin_script};

    /// Of node `n` and page `g`.
    pub fn new(lay: Layout, n: u32, g: u32) -> HasTwin
        requires n { n < lay.t.nodes }
        requires g { g < lay.pages }
        ensures rest { has_rest result ≡ has_twin_script n g }
        ensures lay { has_lay result ≡ lay_of lay }
    {
        HasTwin {
            lay,
            n,
            g,
            has: None,
        }
    }
}

impl Phase for HasTwin {
    ghost use Rattle.dsm_twin.specs.Rests.{has_rest, has_lay};

    type Out = bool;

    ghost lay = { has_lay };

    ghost rest = { has_rest };

    fn next(&self) -> Op {
        Op::Load {
            at: self.lay.place(Item::Twined {
                n: self.n,
                g: self.g,
            }),
        }
    }

    fn after(&mut self, got: u64) -> Turn<bool> {
        let has = got == 1;
        self.has = Some(has);
        Turn::Done(has)
    }
}
