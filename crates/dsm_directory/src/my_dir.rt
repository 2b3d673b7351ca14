ghost use Rattle.std.specs.Prelude.{◌≡◌, ◌<◌};

use dsm_words::item::Item;
use dsm_words::layout::Layout;
use dsm_words::op::Op;
use dsm_words::phase::Phase;
use dsm_words::turn::Turn;

/// Loads a node's directory word of a page.
#[derive(Clone, Copy)]
pub struct MyDir {
    lay: Layout,
    n: u32,
    g: u32,
    word: Option<u64>,
    ghost n_in: { n < lay.t.nodes },
    ghost g_in: { g < lay.pages },
}

impl MyDir {
    ghost use Rattle.dsm_words.specs.Place.{lay_of};
    ghost use Rattle.dsm_directory.specs.Rests.{my_dir_rest, my_dir_lay};
    ghost use Rattle.dsm_directory.specs.Directory.{my_dir_script};

    /// Of node `n` and page `g`.
    pub fn new(lay: Layout, n: u32, g: u32) -> MyDir
        requires n { n < lay.t.nodes }
        requires g { g < lay.pages }
        ensures rest { my_dir_rest result ≡ my_dir_script n g }
        ensures lay { my_dir_lay result ≡ lay_of lay }
    {
        MyDir {
            lay,
            n,
            g,
            word: None,
        }
    }
}

impl Phase for MyDir {
    ghost use Rattle.dsm_directory.specs.Rests.{my_dir_rest, my_dir_lay};

    type Out = u64;

    ghost lay = { my_dir_lay };

    ghost rest = { my_dir_rest };

    fn next(&self) -> Op {
        Op::Load {
            at: self.lay.place(Item::Dir {
                n: self.n,
                g: self.g,
            }),
        }
    }

    fn after(&mut self, got: u64) -> Turn<u64> {
        self.word = Some(got);
        Turn::Done(got)
    }
}
