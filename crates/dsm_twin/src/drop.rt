ghost use Rattle.std.specs.Prelude.{◌≡◌, ◌+◌, ◌*◌, ◌<◌};

use dsm_words::item::Item;
use dsm_words::layout::Layout;
use dsm_words::op::Op;
use dsm_words::phase::Phase;
use dsm_words::turn::Turn;

/// How far it has come: before the load of a mapping, before the store that there is no twin, or before the store that the
/// node doesn't use the page.
#[derive(Clone, Copy)]
enum DropPoint {
    Map,
    Twined,
    Dir,
    Over { dropped: bool },
}

/// Drops a node's twin of a page where no processor of the node may write the page, and takes the node out of the
/// directory where none has a mapping. Its result is whether the twin was dropped.
#[derive(Clone, Copy)]
pub struct DropTwin {
    lay: Layout,
    n: u32,
    g: u32,
    /// The processor at which it is, and how many remain behind it.
    q: u32,
    left: u32,
    /// Whether no mapping so far is for writing, and whether all are none.
    unwritten: bool,
    free: bool,
    at: DropPoint,
    ghost n_in: { n < lay.t.nodes },
    ghost g_in: { g < lay.pages },
    ghost q_in: { q + left < lay.t.nodes * lay.t.procs },
}

impl DropTwin {
    ghost use Rattle.std.specs.Prelude.{true};
    ghost use Rattle.dsm_words.specs.Place.{lay_of};
    ghost use Rattle.dsm_words.specs.Script.{is_open, turn_of};
    ghost use Rattle.dsm_twin.specs.Rests.{drop_rest, drop_lay};
    ghost use Rattle.dsm_twin.specs.Twins.{drop_twin_script, drop_twin_from};

    /// Of node `n` and page `g`.
    #[tactic(auto, using(dsm_words::proofs::Loops::suc_less, dsm_words::proofs::Loops::row_in))]
    pub fn new(lay: Layout, n: u32, g: u32) -> DropTwin
        requires n { n < lay.t.nodes }
        requires g { g < lay.pages }
        ensures rest { drop_rest result ≡ drop_twin_script (lay_of lay) n g }
        ensures open { is_open (drop_rest result) ≡ true }
        ensures lay { drop_lay result ≡ lay_of lay }
    {
        DropTwin {
            lay,
            n,
            g,
            q: n * lay.t.procs,
            left: lay.t.procs - 1,
            unwritten: true,
            free: true,
            at: DropPoint::Map,
        }
    }

    /// To the next processor, where there is one, with what is known of those before it.
    #[tactic(auto, using(dsm_words::proofs::Loops::suc_less))]
    fn go_on(&mut self, unwritten: bool, free: bool) -> Turn<bool>
        ensures rest { drop_rest self.new ≡ drop_twin_from self.old.n self.old.g (self.old.q + 1) self.old.left unwritten free }
        ensures turn { result ≡ turn_of (drop_rest self.new) }
        ensures lay { drop_lay self.new ≡ drop_lay self.old }
    {
        self.unwritten = unwritten;
        self.free = free;
        if self.left > 0 {
            self.q += 1;
            self.left -= 1;
            self.at = DropPoint::Map;
            return Turn::More;
        }
        if unwritten {
            self.at = DropPoint::Twined;
            return Turn::More;
        }
        self.at = DropPoint::Over { dropped: false };
        Turn::Done(false)
    }
}

impl Phase for DropTwin {
    ghost use Rattle.dsm_twin.specs.Rests.{drop_rest, drop_lay};

    type Out = bool;

    ghost lay = { drop_lay };

    ghost rest = { drop_rest };

    fn next(&self) -> Op {
        let (n, g) = (self.n, self.g);
        match self.at {
            DropPoint::Map => Op::Load {
                at: self.lay.place(Item::Map { p: self.q, g }),
            },
            DropPoint::Twined => Op::Store {
                at: self.lay.place(Item::Twined { n, g }),
                v: 0,
            },
            DropPoint::Dir => Op::Store {
                at: self.lay.place(Item::Dir { n, g }),
                v: 0,
            },
            DropPoint::Over { dropped: _ } => unreachable!(),
        }
    }

    fn after(&mut self, got: u64) -> Turn<bool> {
        match self.at {
            DropPoint::Map => {
                let unwritten = self.unwritten && got != 2;
                let free = self.free && got == 0;
                return self.go_on(unwritten, free);
            }
            DropPoint::Twined => {
                if self.free {
                    self.at = DropPoint::Dir;
                    return Turn::More;
                }
            }
            DropPoint::Dir => {}
            DropPoint::Over { dropped: _ } => unreachable!(),
        }
        self.at = DropPoint::Over { dropped: true };
        Turn::Done(true)
    }
}
