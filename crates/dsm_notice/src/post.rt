ghost use Rattle.std.specs.Prelude.{◌≡◌, ◌+◌, ◌<◌, ◌≤◌};
ghost use Rattle.dsm_notice.specs.Posting.{told_slack};

use dsm_words::item::Item;
use dsm_words::layout::Layout;
use dsm_words::op::Op;
use dsm_words::pages::bit_of;
use dsm_words::phase::Phase;
use dsm_words::turn::Turn;

/// How far it has come with its node: before the load of its directory word, or before the notice.
#[derive(Clone, Copy)]
enum PostPoint {
    Dir,
    Global,
    Over,
}

/// Posts the write notices of a page that a node has sent to its home: to each node that uses the page, but not to the
/// node itself and not to the home. Its result is how many it posted.
#[derive(Clone, Copy)]
pub struct Post {
    lay: Layout,
    n: u32,
    g: u32,
    h: u32,
    /// The node at which it is, and how many were told before.
    m: u32,
    told: u64,
    at: PostPoint,
    ghost n_in: { n < lay.t.nodes },
    ghost g_in: { g < lay.pages },
    ghost m_in: { m < lay.t.nodes },
    ghost told_in: { told < m + told_slack at },
}

impl Post {
    ghost use Rattle.std.specs.Prelude.{true};
    ghost use Rattle.dsm_words.specs.Place.{lay_of, home};
    ghost use Rattle.dsm_words.specs.Script.{first, is_open, turn_of};
    ghost use Rattle.dsm_notice.specs.Notices.{post_script};
    ghost use Rattle.dsm_notice.specs.Posting.{is_or};
    ghost use Rattle.dsm_notice.specs.Rests.{post_rest, post_lay, post_left};

    /// From node `n`, of page `g`, whose home is the one that the layout was told.
    #[tactic(auto, using(dsm_words::proofs::Loops::all_remain))]
    pub fn new(lay: Layout, n: u32, g: u32) -> Post
        requires n { n < lay.t.nodes }
        requires g { g < lay.pages }
        ensures rest { post_rest result ≡ post_script (lay_of lay) n g (home lay g) }
        ensures open { is_open (post_rest result) ≡ true }
        ensures lay { post_lay result ≡ lay_of lay }
    {
        Post {
            lay,
            n,
            g,
            h: lay.home(g),
            m: 0,
            told: 0,
            at: PostPoint::Dir,
        }
    }

    /// Whether the next operation posts a notice.
    pub fn is_telling(&self) -> bool
        ensures { result ≡ is_or (first (post_rest self.now)) }
    {
        matches!(self.at, PostPoint::Global)
    }

    /// To the next node, where there is one; so many were told.
    #[tactic(auto, using(dsm_words::proofs::Loops::one_less))]
    fn go_on(&mut self, told: u64) -> Turn<u64>
        requires { told ≤ self.old.m + 1 }
        ensures rest { post_rest self.new ≡ post_left self.old told }
        ensures turn { result ≡ turn_of (post_left self.old told) }
        ensures lay { post_lay self.new ≡ post_lay self.old }
    {
        self.told = told;
        if self.m + 1 < self.lay.t.nodes {
            self.m += 1;
            self.at = PostPoint::Dir;
            return Turn::More;
        }
        self.at = PostPoint::Over;
        Turn::Done(told)
    }
}

impl Phase for Post {
    ghost use Rattle.dsm_notice.specs.Rests.{post_rest, post_lay};

    type Out = u64;

    ghost lay = { post_lay };

    ghost rest = { post_rest };

    fn next(&self) -> Op {
        match self.at {
            PostPoint::Dir => Op::Load {
                at: self.lay.place(Item::Dir {
                    n: self.m,
                    g: self.g,
                }),
            },
            PostPoint::Global => Op::Or {
                at: self.lay.place(Item::Global {
                    n: self.m,
                    m: self.n,
                    k: self.g / 64,
                }),
                bits: bit_of(self.g),
            },
            PostPoint::Over => unreachable!(),
        }
    }

    fn after(&mut self, got: u64) -> Turn<u64> {
        match self.at {
            PostPoint::Dir => {
                if got == 0 || self.m == self.n || self.m == self.h {
                    return self.go_on(self.told);
                }
                self.at = PostPoint::Global;
                Turn::More
            }
            PostPoint::Global => self.go_on(self.told + 1),
            PostPoint::Over => unreachable!(),
        }
    }
}
