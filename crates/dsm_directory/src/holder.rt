ghost use Rattle.std.specs.Prelude.{◌≡◌, ◌<◌};

use dsm_words::item::Item;
use dsm_words::layout::Layout;
use dsm_words::op::Op;
use dsm_words::phase::Phase;
use dsm_words::turn::Turn;

/// Whether it looks at its node, or has ended with the holder, where there is one.
#[derive(Clone, Copy)]
enum HolderPoint {
    Look,
    Over { holder: Option<u32> },
}

/// Finds the first node that has a page alone.
#[derive(Clone, Copy)]
pub struct Holder {
    lay: Layout,
    g: u32,
    m: u32,
    at: HolderPoint,
    ghost g_in: { g < lay.pages },
    ghost m_in: { m < lay.t.nodes },
}

impl Holder {
    ghost use Rattle.std.specs.Prelude.{true};
    ghost use Rattle.dsm_words.specs.Place.{lay_of};
    ghost use Rattle.dsm_words.specs.Script.{is_open, turn_of};
    ghost use Rattle.dsm_directory.specs.Directory.{holder_script};
    ghost use Rattle.dsm_directory.specs.Rests.{holder_rest, holder_lay, holder_left};

    /// Of page `g`.
    #[tactic(auto, using(dsm_words::proofs::Loops::all_remain))]
    pub fn new(lay: Layout, g: u32) -> Holder
        requires { g < lay.pages }
        ensures rest { holder_rest result ≡ holder_script (lay_of lay) g }
        ensures open { is_open (holder_rest result) ≡ true }
        ensures lay { holder_lay result ≡ lay_of lay }
    {
        Holder {
            lay,
            g,
            m: 0,
            at: HolderPoint::Look,
        }
    }

    /// To the next node, where there is one.
    #[tactic(auto, using(dsm_words::proofs::Loops::one_less))]
    fn go_on(&mut self) -> Turn<Option<u32>>
        ensures rest { holder_rest self.new ≡ holder_left self.old }
        ensures turn { result ≡ turn_of (holder_rest self.new) }
        ensures lay { holder_lay self.new ≡ holder_lay self.old }
    {
        if self.m + 1 < self.lay.t.nodes {
            self.m += 1;
            self.at = HolderPoint::Look;
            return Turn::More;
        }
        self.at = HolderPoint::Over { holder: None };
        Turn::Done(None)
    }
}

impl Phase for Holder {
    ghost use Rattle.std.specs.Prelude.{ℕ, true, Some};
    ghost use Rattle.dsm_words.specs.declared.turn.Turn.TheVariants.{Done};
    ghost use Rattle.dsm_words.specs.Script.{step, turn_of, is_open};
    ghost use Rattle.dsm_directory.specs.Rests.{holder_rest, holder_lay};

    type Out = Option<u32>;

    ghost lay = { holder_lay };

    ghost rest = { holder_rest };

    fn next(&self) -> Op {
        let at = self.lay.place(Item::Dir {
            n: self.m,
            g: self.g,
        });
        Op::Load { at }
    }

    fn after(&mut self, got: u64) -> Turn<Option<u32>>
        requires { is_open (holder_rest self.old) ≡ true }
        ensures rest { holder_rest self.new ≡ step (holder_rest self.old) got }
        ensures turn { result ≡ turn_of (holder_rest self.new) }
        ensures lay { holder_lay self.new ≡ holder_lay self.old }
        ensures holder { (m : ℕ) → result ≡ Done (Some m) → m < (holder_lay self.old).nodes }
    {
        if got == 2 {
            self.at = HolderPoint::Over {
                holder: Some(self.m),
            };
            return Turn::Done(Some(self.m));
        }
        self.go_on()
    }
}
