ghost use Rattle.std.specs.Prelude.{◌≡◌, ◌*◌, ◌<◌, ◌≤◌};

use dsm_words::item::Item;
use dsm_words::layout::Layout;
use dsm_words::op::Op;
use dsm_words::phase::Phase;
use dsm_words::turn::Turn;

/// Stores a processor's mapping of a page: 0 none, 1 read, 2 write, 3 wanted.
#[derive(Clone, Copy)]
pub struct SetMap {
    lay: Layout,
    p: u32,
    g: u32,
    m: u64,
    over: bool,
    ghost p_in: { p < lay.t.nodes * lay.t.procs },
    ghost g_in: { g < lay.pages },
}

impl SetMap {
    ghost use Rattle.dsm_words.specs.Place.{lay_of};
    ghost use Rattle.dsm_frames.specs.Frames.{map_script, map_rest, map_lay};

    /// Of processor `p` and page `g`, which becomes `m`.
    pub fn new(lay: Layout, p: u32, g: u32, m: u64) -> SetMap
        requires p { p < lay.t.nodes * lay.t.procs }
        requires g { g < lay.pages }
        requires m { m ≤ 3 }
        ensures rest { map_rest result ≡ map_script p g m }
        ensures lay { map_lay result ≡ lay_of lay }
    {
        SetMap {
            lay,
            p,
            g,
            m,
            over: false,
        }
    }
}

impl Phase for SetMap {
    ghost use Rattle.dsm_frames.specs.Frames.{map_rest, map_lay};

    type Out = ();

    ghost lay = { map_lay };

    ghost rest = { map_rest };

    fn next(&self) -> Op {
        let at = self.lay.place(Item::Map {
            p: self.p,
            g: self.g,
        });
        Op::Store { at, v: self.m }
    }

    fn after(&mut self, _got: u64) -> Turn<()> {
        self.over = true;
        Turn::Done(())
    }
}
