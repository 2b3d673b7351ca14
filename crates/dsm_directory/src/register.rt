ghost use Rattle.std.specs.Prelude.{◌≡◌, ◌<◌};

use dsm_words::item::Item;
use dsm_words::layout::Layout;
use dsm_words::op::Op;
use dsm_words::phase::Phase;
use dsm_words::turn::Turn;

/// Before which store it is, or behind both.
#[derive(Clone, Copy)]
enum RegisterPoint {
    Update,
    Dir,
    Over,
}

/// Stores that a node shares a page, and that it has no copy of it yet.
#[derive(Clone, Copy)]
pub struct Register {
    lay: Layout,
    n: u32,
    g: u32,
    at: RegisterPoint,
    ghost n_in: { n < lay.t.nodes },
    ghost g_in: { g < lay.pages },
}

impl Register {
    ghost use Rattle.dsm_words.specs.Place.{lay_of};
    ghost use Rattle.dsm_directory.specs.Directory.{register_script};
    ghost use Rattle.dsm_directory.specs.Rests.{register_rest, register_lay};

    /// Of node `n` and page `g`.
    pub fn new(lay: Layout, n: u32, g: u32) -> Register
        requires n { n < lay.t.nodes }
        requires g { g < lay.pages }
        ensures rest { register_rest result ≡ register_script n g }
        ensures lay { register_lay result ≡ lay_of lay }
    {
        Register {
            lay,
            n,
            g,
            at: RegisterPoint::Update,
        }
    }
}

impl Phase for Register {
    ghost use Rattle.dsm_directory.specs.Rests.{register_rest, register_lay};

    type Out = ();

    ghost lay = { register_lay };

    ghost rest = { register_rest };

    fn next(&self) -> Op {
        let (n, g) = (self.n, self.g);
        match self.at {
            RegisterPoint::Update => Op::Store {
                at: self.lay.place(Item::Update { n, g }),
                v: 0,
            },
            RegisterPoint::Dir => Op::Store {
                at: self.lay.place(Item::Dir { n, g }),
                v: 1,
            },
            RegisterPoint::Over => unreachable!(),
        }
    }

    fn after(&mut self, _got: u64) -> Turn<()> {
        match self.at {
            RegisterPoint::Update => {
                self.at = RegisterPoint::Dir;
                Turn::More
            }
            RegisterPoint::Dir => {
                self.at = RegisterPoint::Over;
                Turn::Done(())
            }
            RegisterPoint::Over => unreachable!(),
        }
    }
}
