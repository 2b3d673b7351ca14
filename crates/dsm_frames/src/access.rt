ghost use Rattle.std.specs.Prelude.{◌≡◌, ◌*◌, ◌<◌};

use dsm_words::item::Item;
use dsm_words::layout::Layout;
use dsm_words::op::Op;
use dsm_words::phase::Phase;
use dsm_words::turn::Turn;

/// Whether an access loads or stores.
#[derive(Clone, Copy)]
enum Doing {
    Load,
    Store { v: u64 },
}

/// A load or a store of an address in the frames of a node.
#[derive(Clone, Copy)]
pub struct Access {
    lay: Layout,
    n: u32,
    w: u32,
    doing: Doing,
    value: Option<u64>,
    ghost n_in: { n < lay.t.nodes },
    ghost w_in: { w < lay.pages * lay.words },
}

impl Access {
    ghost use Rattle.dsm_words.specs.Place.{lay_of};
    ghost use Rattle.dsm_frames.specs.Frames.{load_script, store_script, access_rest, access_lay};

    /// A load of address `w` in the frames of node `n`.
    pub fn load(lay: Layout, n: u32, w: u32) -> Access
        requires n { n < lay.t.nodes }
        requires w { w < lay.pages * lay.words }
        ensures rest { access_rest result ≡ load_script (lay_of lay) n w }
        ensures lay { access_lay result ≡ lay_of lay }
    {
        Access {
            lay,
            n,
            w,
            doing: Doing::Load,
            value: None,
        }
    }

    /// A store of `v` to address `w` in the frames of node `n`.
    pub fn store(lay: Layout, n: u32, w: u32, v: u64) -> Access
        requires n { n < lay.t.nodes }
        requires w { w < lay.pages * lay.words }
        ensures rest { access_rest result ≡ store_script (lay_of lay) n w v }
        ensures lay { access_lay result ≡ lay_of lay }
    {
        Access {
            lay,
            n,
            w,
            doing: Doing::Store { v },
            value: None,
        }
    }
}

impl Phase for Access {
    ghost use Rattle.dsm_frames.specs.Frames.{access_rest, access_lay};

    type Out = u64;

    ghost lay = { access_lay };

    ghost rest = { access_rest };

    fn next(&self) -> Op {
        let at = self.lay.place(Item::Frame {
            n: self.n,
            g: self.w / self.lay.words,
            i: self.w % self.lay.words,
        });
        match self.doing {
            Doing::Load => Op::Load { at },
            Doing::Store { v } => Op::Store { at, v },
        }
    }

    fn after(&mut self, got: u64) -> Turn<u64> {
        let value = match self.doing {
            Doing::Load => got,
            Doing::Store { v } => v,
        };
        self.value = Some(value);
        Turn::Done(value)
    }
}
