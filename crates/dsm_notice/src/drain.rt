ghost use Rattle.std.specs.Prelude.{◌≡◌, ◌+◌, ◌*◌, ◌<◌, ◌≤◌};
ghost use Rattle.dsm_words.specs.Place.{lay_of, groups};
ghost use Rattle.dsm_words.specs.Pages.{pages_in};
ghost use Rattle.dsm_notice.specs.Finding.{HasNext, HasNone, page_at, left_at};

use dsm_words::item::Item;
use dsm_words::layout::Layout;
use dsm_words::op::Op;
use dsm_words::phase::Phase;
use dsm_words::turn::Turn;

/// How far it has come with its word: `bits` are its pages, `b` the one that it is at, `t` the time drawn for it, `q` the
/// processor to be told, and `left` how many remain behind it.
#[derive(Clone, Copy)]
enum DrainPoint {
    Swap,
    Clock {
        bits: u64,
        b: u32,
    },
    Notice {
        bits: u64,
        b: u32,
        t: u64,
    },
    Own {
        bits: u64,
        b: u32,
        q: u32,
        left: u32,
    },
    Over,
}

/// Takes the notices for a node from all nodes, notes for each page when it heard of it, and tells all processors of the
/// node.
#[derive(Clone, Copy)]
pub struct Drain {
    lay: Layout,
    n: u32,
    /// The word at which it is: from which node, and of which group.
    m: u32,
    k: u32,
    at: DrainPoint,
    ghost n_in: { n < lay.t.nodes },
    ghost m_in: { m < lay.t.nodes },
    ghost k_in: { k < groups (lay_of lay) },
    ghost b_in: { page_at at < pages_in (lay_of lay) k },
    ghost q_in: { left_at at < lay.t.nodes * lay.t.procs },
}

/// The first of the pages from `from` to `to` that is in `bits`.
fn first_page(bits: u64, from: u32, to: u32) -> Option<u32>
    requires { to ≤ 64 }
    ensures some { HasNext bits from to result }
    ensures none { HasNone bits from to result }
{
    if from >= to {
        return None;
    }
    let rest = bits >> from;
    if rest == 0 {
        return None;
    }
    let b = from + rest.trailing_zeros();
    if b < to { Some(b) } else { None }
}

impl Drain {
    ghost use Rattle.std.specs.Prelude.{true};
    ghost use Rattle.dsm_words.specs.Script.{is_open, turn_of};
    ghost use Rattle.dsm_notice.specs.Notices.{drain_script};
    ghost use Rattle.dsm_notice.specs.Rests.{drain_rest, drain_lay, words_left, pages_left};

    /// Of node `n`.
    #[tactic(auto, using(crate::proofs::Hearing::first_node))]
    pub fn new(lay: Layout, n: u32) -> Drain
        requires n { n < lay.t.nodes }
        ensures rest { drain_rest result ≡ drain_script (lay_of lay) n }
        ensures open { is_open (drain_rest result) ≡ true }
        ensures lay { drain_lay result ≡ lay_of lay }
    {
        Drain {
            lay,
            n,
            m: 0,
            k: 0,
            at: DrainPoint::Swap,
        }
    }

    /// To the next word, where there is one.
    #[tactic(auto, using(dsm_words::proofs::Loops::one_less, crate::proofs::Hearing::next_node))]
    fn to_word(&mut self) -> Turn<()>
        ensures rest { drain_rest self.new ≡ words_left self.old }
        ensures turn { result ≡ turn_of (drain_rest self.new) }
        ensures lay { drain_lay self.new ≡ drain_lay self.old }
    {
        self.at = DrainPoint::Swap;
        if self.k + 1 < self.lay.groups() {
            self.k += 1;
            return Turn::More;
        }
        if self.m + 1 < self.lay.t.nodes {
            self.m += 1;
            self.k = 0;
            return Turn::More;
        }
        self.at = DrainPoint::Over;
        Turn::Done(())
    }

    /// To the first page of its word from page `from` on, where there is one, and else to the next word.
    #[tactic(auto, using(crate::proofs::Hearing::heard, crate::proofs::Hearing::none_heard))]
    fn to_page(&mut self, bits: u64, from: u32) -> Turn<()>
        ensures rest { drain_rest self.new ≡ pages_left self.old bits from }
        ensures turn { result ≡ turn_of (drain_rest self.new) }
        ensures lay { drain_lay self.new ≡ drain_lay self.old }
    {
        match first_page(bits, from, self.lay.pages_in(self.k)) {
            Some(b) => {
                self.at = DrainPoint::Clock { bits, b };
                Turn::More
            }
            None => self.to_word(),
        }
    }
}

impl Phase for Drain {
    ghost use Rattle.dsm_notice.specs.Rests.{drain_rest, drain_lay};

    type Out = ();

    ghost lay = { drain_lay };

    ghost rest = { drain_rest };

    fn next(&self) -> Op {
        let (n, k) = (self.n, self.k);
        match self.at {
            DrainPoint::Swap => Op::Swap {
                at: self.lay.place(Item::Global { n, m: self.m, k }),
                v: 0,
            },
            DrainPoint::Clock { bits: _, b: _ } => Op::Add {
                at: self.lay.place(Item::Clock { n }),
                k: 1,
            },
            DrainPoint::Notice { bits: _, b, t } => Op::Store {
                at: self.lay.place(Item::Notice { n, g: 64 * k + b }),
                v: t,
            },
            DrainPoint::Own {
                bits: _,
                b,
                q,
                left: _,
            } => Op::Or {
                at: self.lay.place(Item::Own { p: q, k }),
                bits: 1 << b,
            },
            DrainPoint::Over => unreachable!(),
        }
    }

    #[tactic(auto, using(dsm_words::proofs::Loops::suc_less, dsm_words::proofs::Loops::row_in))]
    fn after(&mut self, got: u64) -> Turn<()> {
        match self.at {
            DrainPoint::Swap => return self.to_page(got, 0),
            DrainPoint::Clock { bits, b } => self.at = DrainPoint::Notice { bits, b, t: got },
            DrainPoint::Notice { bits, b, t: _ } => {
                self.at = DrainPoint::Own {
                    bits,
                    b,
                    q: self.n * self.lay.t.procs,
                    left: self.lay.t.procs - 1,
                };
            }
            DrainPoint::Own { bits, b, q, left } => {
                if left == 0 {
                    return self.to_page(bits, b + 1);
                }
                self.at = DrainPoint::Own {
                    bits,
                    b,
                    q: q + 1,
                    left: left - 1,
                };
            }
            DrainPoint::Over => unreachable!(),
        }
        Turn::More
    }
}
