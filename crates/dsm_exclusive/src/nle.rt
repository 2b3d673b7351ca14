ghost use Rattle.std.specs.Prelude.{◌≡◌, ◌*◌, ◌<◌};
ghost use Rattle.dsm_words.specs.Place.{lay_of, groups};

use dsm_words::item::Item;
use dsm_words::layout::Layout;
use dsm_words::op::Op;
use dsm_words::phase::Phase;
use dsm_words::turn::Turn;

/// Takes the pages that are no longer exclusive and of which a processor must tell, since it could write them when their
/// node's exclusive mode was broken.
#[derive(Clone, Copy)]
pub struct TakeNle {
    lay: Layout,
    p: u32,
    k: u32,
    set: [u64; 4],
    over: bool,
    ghost p_in: { p < lay.t.nodes * lay.t.procs },
    ghost k_in: { k < groups (lay_of lay) },
}

const _: () = prove!(size_of::<TakeNle>() <= 128);

impl TakeNle {
    ghost use Rattle.dsm_words.specs.Script.{turn_of};
    ghost use Rattle.dsm_exclusive.specs.Telling.{take_nle_script, take_nle_rest, take_nle_lay, take_nle_behind};

    /// Of processor `p`. Its result is the set of pages, page g as bit g mod 64 of word g / 64.
    #[tactic(auto, using(dsm_words::proofs::Loops::some_groups))]
    pub fn new(lay: Layout, p: u32) -> TakeNle
        requires { p < lay.t.nodes * lay.t.procs }
        ensures rest { take_nle_rest result ≡ take_nle_script (lay_of lay) p }
        ensures lay { take_nle_lay result ≡ lay_of lay }
    {
        TakeNle {
            lay,
            p,
            k: 0,
            set: [0; 4],
            over: false,
        }
    }

    /// Goes to the next word, where there is one.
    #[tactic(auto, using(dsm_words::proofs::Loops::one_less))]
    fn go_on(&mut self) -> Turn<[u64; 4]>
        ensures rest { take_nle_rest self.new ≡ take_nle_behind self.old }
        ensures turn { result ≡ turn_of (take_nle_behind self.old) }
        ensures lay { take_nle_lay self.new ≡ take_nle_lay self.old }
    {
        if self.k + 1 < self.lay.groups() {
            self.k += 1;
            self.over = false;
            return Turn::More;
        }
        self.over = true;
        Turn::Done(self.set)
    }
}

impl Phase for TakeNle {
    ghost use Rattle.dsm_exclusive.specs.Telling.{take_nle_rest, take_nle_lay};

    type Out = [u64; 4];

    ghost lay = { take_nle_lay };

    ghost rest = { take_nle_rest };

    fn next(&self) -> Op {
        Op::Swap {
            at: self.lay.place(Item::Nle {
                p: self.p,
                k: self.k,
            }),
            v: 0,
        }
    }

    fn after(&mut self, got: u64) -> Turn<[u64; 4]> {
        self.set[self.k as usize] = self.lay.cut(self.k, got);
        self.go_on()
    }
}
