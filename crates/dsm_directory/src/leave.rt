ghost use Rattle.std.specs.Prelude.{◌≡◌, ◌+◌, ◌*◌, ◌<◌};

use dsm_words::item::Item;
use dsm_words::layout::Layout;
use dsm_words::op::Op;
use dsm_words::phase::Phase;
use dsm_words::turn::Turn;

/// How far it has come: before the load of a mapping, before the look at the twin, or before the store.
#[derive(Clone, Copy)]
enum LeavePoint {
    Map,
    Twined,
    Dir,
    Over { left: bool },
}

/// Stores that a node doesn't use a page, where no processor of the node has a mapping of it and the node has no twin. Its
/// result is whether it stored that.
#[derive(Clone, Copy)]
pub struct Leave {
    lay: Layout,
    n: u32,
    g: u32,
    /// The processor at which it is, and how many remain behind it.
    q: u32,
    left: u32,
    /// Whether all mappings so far are none.
    free: bool,
    at: LeavePoint,
    ghost n_in: { n < lay.t.nodes },
    ghost g_in: { g < lay.pages },
    ghost q_in: { q + left < lay.t.nodes * lay.t.procs },
}

impl Leave {
    ghost use Rattle.std.specs.Prelude.{true};
    ghost use Rattle.dsm_words.specs.Place.{lay_of};
    ghost use Rattle.dsm_words.specs.Script.{is_open, turn_of};
    ghost use Rattle.dsm_directory.specs.Directory.{leave_script, leave_from};
    ghost use Rattle.dsm_directory.specs.Rests.{leave_rest, leave_lay};

    /// Of node `n` and page `g`.
    #[tactic(auto, using(dsm_words::proofs::Loops::suc_less, dsm_words::proofs::Loops::row_in))]
    pub fn new(lay: Layout, n: u32, g: u32) -> Leave
        requires n { n < lay.t.nodes }
        requires g { g < lay.pages }
        ensures rest { leave_rest result ≡ leave_script (lay_of lay) n g }
        ensures open { is_open (leave_rest result) ≡ true }
        ensures lay { leave_lay result ≡ lay_of lay }
    {
        Leave {
            lay,
            n,
            g,
            q: n * lay.t.procs,
            left: lay.t.procs - 1,
            free: true,
            at: LeavePoint::Map,
        }
    }

    /// To the next processor, where there is one, with what is known of those before it.
    #[tactic(auto, using(dsm_words::proofs::Loops::suc_less))]
    fn go_on(&mut self, free: bool) -> Turn<bool>
        ensures rest { leave_rest self.new ≡ leave_from self.old.n self.old.g (self.old.q + 1) self.old.left free }
        ensures turn { result ≡ turn_of (leave_rest self.new) }
        ensures lay { leave_lay self.new ≡ leave_lay self.old }
    {
        self.free = free;
        if self.left > 0 {
            self.q += 1;
            self.left -= 1;
            self.at = LeavePoint::Map;
            return Turn::More;
        }
        if free {
            self.at = LeavePoint::Twined;
            return Turn::More;
        }
        self.at = LeavePoint::Over { left: false };
        Turn::Done(false)
    }
}

impl Phase for Leave {
    ghost use Rattle.dsm_directory.specs.Rests.{leave_rest, leave_lay};

    type Out = bool;

    ghost lay = { leave_lay };

    ghost rest = { leave_rest };

    fn next(&self) -> Op {
        let (n, g) = (self.n, self.g);
        match self.at {
            LeavePoint::Map => Op::Load {
                at: self.lay.place(Item::Map { p: self.q, g }),
            },
            LeavePoint::Twined => Op::Load {
                at: self.lay.place(Item::Twined { n, g }),
            },
            LeavePoint::Dir => Op::Store {
                at: self.lay.place(Item::Dir { n, g }),
                v: 0,
            },
            LeavePoint::Over { left: _ } => unreachable!(),
        }
    }

    fn after(&mut self, got: u64) -> Turn<bool> {
        let left = match self.at {
            LeavePoint::Map => {
                let free = self.free && got == 0;
                return self.go_on(free);
            }
            LeavePoint::Twined => {
                if got == 0 {
                    self.at = LeavePoint::Dir;
                    return Turn::More;
                }
                false
            }
            LeavePoint::Dir => true,
            LeavePoint::Over { left: _ } => unreachable!(),
        };
        self.at = LeavePoint::Over { left };
        Turn::Done(left)
    }
}
