ghost use Rattle.std.specs.Prelude.{◌≡◌, ◌<◌, true};
ghost use Rattle.dsm_words.specs.Place.{lay_of};
ghost use Rattle.dsm_incoming.specs.Getting.{overwrite_lay};
ghost use Rattle.dsm_exclusive.specs.Copying.{copy_open};

use dsm_clock::draw::Draw;
use dsm_clock::stamp::{Stamp, Which};
use dsm_incoming::overwrite::Overwrite;
use dsm_words::item::Item;
use dsm_words::layout::Layout;
use dsm_words::op::Op;
use dsm_words::phase::Phase;
use dsm_words::turn::Turn;

/// The phase under way, of which `t` is the time that was drawn.
#[derive(Clone, Copy)]
enum At {
    Draw,
    Copy { t: u64 },
    Stamp { t: u64 },
    Last,
    Over,
}

/// Enters exclusive mode: draws a time, overwrites the node's frame, notes the time as that of the update, and stores
/// that the node has the page alone. At home there is nothing to copy, and it only stores.
#[derive(Clone, Copy)]
pub struct Enter {
    copy: Overwrite,
    lay: Layout,
    n: u32,
    g: u32,
    at: At,
    ghost n_in: { n < lay.t.nodes },
    ghost g_in: { g < lay.pages },
    ghost copy_lay: { overwrite_lay copy ≡ lay_of lay },
    ghost copy_open: { copy_open copy at ≡ true },
}

const _: () = prove!(size_of::<Enter>() <= 128);

impl Enter {
    ghost use Rattle.dsm_words.specs.Place.{home};
    ghost use Rattle.dsm_exclusive.specs.Entering.{copy_script, enter_script, enter_rest, enter_lay, copy_left, is_copied};

    /// Node n for page `g`, with the home that the layout has for it.
    pub fn new(lay: Layout, n: u32, g: u32) -> Enter
        requires n { n < lay.t.nodes }
        requires g { g < lay.pages }
        ensures rest { enter_rest result ≡ enter_script (lay_of lay) n g (home lay g) }
        ensures lay { enter_lay result ≡ lay_of lay }
        ensures copy { copy_left result ≡ copy_script (lay_of lay) n g (home lay g) }
    {
        Enter {
            copy: Overwrite::new(lay, n, g),
            lay,
            n,
            g,
            at: if n == lay.home(g) { At::Last } else { At::Draw },
        }
    }

    /// Whether the answer that came last was that of the last operation of its copy.
    pub fn copied(&self) -> bool
        ensures { result ≡ is_copied self.now }
    {
        matches!(self.at, At::Stamp { t: _ })
    }
}

impl Phase for Enter {
    ghost use Rattle.std.specs.Prelude.{◌↔◌};
    ghost use Rattle.dsm_words.specs.Script.{step, turn_of, is_open};
    ghost use Rattle.dsm_exclusive.specs.Entering.{enter_rest, enter_lay, copy_left, is_copied, CopyEnds};

    type Out = ();

    ghost lay = { enter_lay };

    ghost rest = { enter_rest };

    fn next(&self) -> Op {
        let (n, g) = (self.n, self.g);
        match self.at {
            At::Draw => Draw::new(self.lay, n).next(),
            At::Copy { t: _ } => self.copy.next(),
            At::Stamp { t } => Stamp::new(self.lay, Which::Update, n, g, t).next(),
            At::Last => Op::Store {
                at: self.lay.place(Item::Dir { n, g }),
                v: 2,
            },
            At::Over => unreachable!(),
        }
    }

    #[tactic(auto, using(crate::proofs::Copying::copy_step, crate::proofs::Copying::whole_step))]
    fn after(&mut self, got: u64) -> Turn<()>
        requires { is_open (enter_rest self.old) ≡ true }
        ensures rest { enter_rest self.new ≡ step (enter_rest self.old) got }
        ensures turn { result ≡ turn_of (enter_rest self.new) }
        ensures lay { enter_lay self.new ≡ enter_lay self.old }
        ensures copy { is_open (copy_left self.old) ≡ true → copy_left self.new ≡ step (copy_left self.old) got }
        // This answer was the last of its copy.
        ensures copied { (is_copied self.new ≡ true) ↔ CopyEnds self.old self.new }
    {
        match self.at {
            At::Draw => {
                if let Turn::Done(t) = Draw::new(self.lay, self.n).after(got) {
                    self.at = At::Copy { t };
                }
            }
            At::Copy { t } => {
                if let Turn::Done(()) = self.copy.after(got) {
                    self.at = At::Stamp { t };
                }
            }
            At::Stamp { t: _ } => self.at = At::Last,
            At::Last => {
                self.at = At::Over;
                return Turn::Done(());
            }
            At::Over => unreachable!(),
        }
        Turn::More
    }
}
