ghost use Rattle.std.specs.Prelude.{◌≡◌, ◌<◌};

use dsm_words::item::Item;
use dsm_words::layout::Layout;
use dsm_words::op::Op;
use dsm_words::phase::Phase;
use dsm_words::turn::Turn;

/// Loads when a node last flushed a page.
#[derive(Clone, Copy)]
pub struct LastFlush {
    lay: Layout,
    n: u32,
    g: u32,
    time: Option<u64>,
    ghost n_in: { n < lay.t.nodes },
    ghost g_in: { g < lay.pages },
}

const _: () = prove!(size_of::<LastFlush>() <= 128);

impl LastFlush {
    ghost use Rattle.dsm_words.specs.Place.{lay_of};
    ghost use Rattle.dsm_outgoing.specs.Sending.{last_flush_script, last_flush_rest, last_flush_lay};

    /// Of node `n` and page `g`. Its result is the time by node n's clock, 0 where there was no flush yet.
    pub fn new(lay: Layout, n: u32, g: u32) -> LastFlush
        requires n { n < lay.t.nodes }
        requires g { g < lay.pages }
        ensures rest { last_flush_rest result ≡ last_flush_script n g }
        ensures lay { last_flush_lay result ≡ lay_of lay }
    {
        LastFlush {
            lay,
            n,
            g,
            time: None,
        }
    }
}

impl Phase for LastFlush {
    ghost use Rattle.dsm_outgoing.specs.Sending.{last_flush_rest, last_flush_lay};

    type Out = u64;

    ghost lay = { last_flush_lay };

    ghost rest = { last_flush_rest };

    fn next(&self) -> Op {
        Op::Load {
            at: self.lay.place(Item::Flush {
                n: self.n,
                g: self.g,
            }),
        }
    }

    fn after(&mut self, got: u64) -> Turn<u64> {
        self.time = Some(got);
        Turn::Done(got)
    }
}
