ghost use Rattle.std.specs.Prelude.{◌≡◌, ◌<◌};

use crate::row::Row;
use dsm_words::item::Item;
use dsm_words::layout::Layout;
use dsm_words::op::Op;
use dsm_words::phase::Phase;
use dsm_words::turn::Turn;

/// Loads the directory words of all nodes of a page.
#[derive(Clone, Copy)]
pub struct Sharers {
    lay: Layout,
    n: u32,
    g: u32,
    m: u32,
    row: Row,
    over: bool,
    ghost n_in: { n < lay.t.nodes },
    ghost g_in: { g < lay.pages },
    ghost m_in: { m < lay.t.nodes },
}

impl Sharers {
    ghost use Rattle.std.specs.Prelude.{true};
    ghost use Rattle.dsm_words.specs.Place.{lay_of};
    ghost use Rattle.dsm_words.specs.Script.{is_open, turn_of};
    ghost use Rattle.dsm_directory.specs.Directory.{sharers_script};
    ghost use Rattle.dsm_directory.specs.Rests.{sharers_rest, sharers_lay, sharers_left};

    /// Of page `g`, seen by node `n`.
    #[tactic(auto, using(dsm_words::proofs::Loops::all_remain))]
    pub fn new(lay: Layout, n: u32, g: u32) -> Sharers
        requires n { n < lay.t.nodes }
        requires g { g < lay.pages }
        ensures rest { sharers_rest result ≡ sharers_script (lay_of lay) n g }
        ensures open { is_open (sharers_rest result) ≡ true }
        ensures lay { sharers_lay result ≡ lay_of lay }
    {
        Sharers {
            lay,
            n,
            g,
            m: 0,
            row: Row {
                own: 0,
                others: false,
                busy: 0,
            },
            over: false,
        }
    }

    /// To the next node, where there is one, with this row.
    #[tactic(auto, using(dsm_words::proofs::Loops::one_less))]
    fn go_on(&mut self, row: Row) -> Turn<Row>
        ensures rest { sharers_rest self.new ≡ sharers_left self.old row }
        ensures turn { result ≡ turn_of (sharers_left self.old row) }
        ensures lay { sharers_lay self.new ≡ sharers_lay self.old }
    {
        self.row = row;
        if self.m + 1 < self.lay.t.nodes {
            self.m += 1;
            self.over = false;
            return Turn::More;
        }
        self.over = true;
        Turn::Done(row)
    }
}

impl Phase for Sharers {
    ghost use Rattle.dsm_directory.specs.Rests.{sharers_rest, sharers_lay};

    type Out = Row;

    ghost lay = { sharers_lay };

    ghost rest = { sharers_rest };

    fn next(&self) -> Op {
        Op::Load {
            at: self.lay.place(Item::Dir {
                n: self.m,
                g: self.g,
            }),
        }
    }

    fn after(&mut self, got: u64) -> Turn<Row> {
        let row = self.row.with(self.n, self.m, got);
        self.go_on(row)
    }
}
