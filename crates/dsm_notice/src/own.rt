ghost use Rattle.std.specs.Prelude.{◌≡◌, ◌*◌, ◌<◌};
ghost use Rattle.dsm_words.specs.Place.{lay_of, groups};

use dsm_words::item::Item;
use dsm_words::layout::Layout;
use dsm_words::op::Op;
use dsm_words::phase::Phase;
use dsm_words::turn::Turn;

/// Takes the pages of which a processor was told: bit g mod 64 of word g / 64 stands for page g.
#[derive(Clone, Copy)]
pub struct TakeOwn {
    lay: Layout,
    p: u32,
    k: u32,
    set: [u64; 4],
    over: bool,
    ghost p_in: { p < lay.t.nodes * lay.t.procs },
    ghost k_in: { k < groups (lay_of lay) },
}

impl TakeOwn {
    ghost use Rattle.std.specs.Prelude.{true};
    ghost use Rattle.dsm_words.specs.Script.{is_open, turn_of};
    ghost use Rattle.dsm_notice.specs.Notices.{take_own_script};
    ghost use Rattle.dsm_notice.specs.Rests.{own_rest, own_lay, own_left};

    /// Of processor `p`.
    #[tactic(auto, using(dsm_words::proofs::Loops::some_groups))]
    pub fn new(lay: Layout, p: u32) -> TakeOwn
        requires { p < lay.t.nodes * lay.t.procs }
        ensures rest { own_rest result ≡ take_own_script (lay_of lay) p }
        ensures open { is_open (own_rest result) ≡ true }
        ensures lay { own_lay result ≡ lay_of lay }
    {
        TakeOwn {
            lay,
            p,
            k: 0,
            set: [0; 4],
            over: false,
        }
    }

    /// To the next word, where there is one.
    #[tactic(auto, using(dsm_words::proofs::Loops::one_less))]
    fn go_on(&mut self) -> Turn<[u64; 4]>
        ensures rest { own_rest self.new ≡ own_left self.old self.old.set }
        ensures turn { result ≡ turn_of (own_left self.old self.old.set) }
        ensures lay { own_lay self.new ≡ own_lay self.old }
    {
        if self.k + 1 < self.lay.groups() {
            self.k += 1;
            self.over = false;
            return Turn::More;
        }
        self.over = true;
        Turn::Done(self.set)
    }
}

impl Phase for TakeOwn {
    ghost use Rattle.dsm_notice.specs.Rests.{own_rest, own_lay};

    type Out = [u64; 4];

    ghost lay = { own_lay };

    ghost rest = { own_rest };

    fn next(&self) -> Op {
        let at = self.lay.place(Item::Own {
            p: self.p,
            k: self.k,
        });
        Op::Swap { at, v: 0 }
    }

    fn after(&mut self, got: u64) -> Turn<[u64; 4]> {
        self.set[self.k as usize] = self.lay.cut(self.k, got);
        self.go_on()
    }
}
