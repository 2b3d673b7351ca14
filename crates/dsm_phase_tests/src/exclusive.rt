ghost use Rattle.std.specs.Prelude.{◌≡◌, true};
ghost use Rattle.dsm_words.specs.Script.{is_open};
ghost use Rattle.dsm_exclusive.specs.Entering.{enter_rest};

use crate::making::{load, made, store};
use dsm_exclusive::breaking::Break;
use dsm_exclusive::enter::Enter;
use dsm_exclusive::nle::TakeNle;
use dsm_words::layout::Layout;
use dsm_words::op::Op;
use dsm_words::phase::Phase;
use dsm_words::topology::Topology;
use dsm_words::turn::Turn;
use std::process::Abort;
use std::test::Fail;

fn or(at: u64, bits: u64) -> Op {
    Op::Or { at, bits }
}

fn swap(at: u64) -> Op {
    Op::Swap { at, v: 0 }
}

/// Whether it enters by these operations over these answers, and ends its copy exactly with number `copied`.
fn enters(mut enter: Enter, list: &[(Op, u64)], copied: usize) -> bool
    requires { is_open (enter_rest enter) ≡ true }
{
    for (k, (op, got)) in list.iter().enumerate() {
        if enter.next() != *op {
            return false;
        }
        let turn = enter.after(*got);
        if enter.copied() != (k == copied) {
            return false;
        }
        if let Turn::Done(()) = turn {
            return k + 1 == list.len();
        }
    }
    false
}

// One node of two processors, one page of one word: the mappings stand at 4 and 5, the directory at 6, the words of
// pages no longer exclusive at 16 and 17.
fn smallest(rt: &impl Abort) -> Result<(), Fail> {
    let lay = Layout::new(Topology::new(1, 2)?, 1, 1, 0, 0, 0);
    assert!(rt; enters(Enter::new(lay, 0, 0), &[(store(6, 2), 9)], 9));
    let list = [(load(4), 2), (or(16, 1), 9), (load(5), 1), (store(6, 1), 9)];
    assert_eq!(rt; made(rt, &mut Break::new(lay, 0, 0), &list), Some(()));
    assert_eq!(rt;
        made(rt, &mut TakeNle::new(lay, 1), &[(swap(17), u64::MAX)]),
        Some([1, 0, 0, 0])
    );
    assert_eq!(rt;
        made(rt, &mut TakeNle::new(lay, 0), &[(swap(16), u64::MAX - 1)]),
        Some([0; 4])
    );
    Ok(())
}

// Three nodes of two processors, 130 pages of three words: of the last page node 2 has its frame at 1168, its twin at
// 2338, whether it has one at 2730, its mappings at 3380 and 3510, its word in the directory at 3900 and its update at
// 4290; its home is node 0, with its frame at 388, where it is not told to be another. The clock of node 2 stands at 5073.
fn larger_enters(rt: &impl Abort) -> Result<(), Fail> {
    let lay = Layout::new(Topology::new(3, 2)?, 130, 3, 0, 0, 0);
    let list = [
        (Op::Add { at: 5073, k: 1 }, 9),
        (load(388), 7),
        (store(1168, 7), 2),
        (load(389), u64::MAX),
        (store(1169, u64::MAX), 2),
        (load(390), 0),
        (store(1170, 0), 2),
        (store(4290, 9), 2),
        (store(3900, 2), 2),
    ];
    assert!(rt; enters(Enter::new(lay, 2, 129), &list, 6));
    assert!(rt;
        enters(
            Enter::new(lay.with_home(129, 2), 2, 129),
            &[(store(3900, 2), 2)],
            9
        )
    );
    Ok(())
}

// There its processors 4 and 5 have the words of pages no longer exclusive at 5524 to 5529; node 1 has its frame at 778.
fn larger_breaks(rt: &impl Abort) -> Result<(), Fail> {
    let lay = Layout::new(Topology::new(3, 2)?, 130, 3, 0, 0, 0);
    let list = [
        (load(3380), 2),
        (or(5526, 2), 2),
        (load(3510), 3),
        (load(1168), 7),
        (store(2338, 7), 2),
        (store(778, 7), 2),
        (load(1169), 0),
        (store(2339, 0), 2),
        (store(779, 0), 2),
        (load(1170), u64::MAX),
        (store(2340, u64::MAX), 2),
        (store(780, u64::MAX), 2),
        (store(2730, 1), 2),
        (store(3900, 1), 2),
    ];
    assert_eq!(rt;
        made(rt, &mut Break::new(lay.with_home(129, 1), 2, 129), &list),
        Some(())
    );
    let home = [
        (load(3380), u64::MAX),
        (load(3510), 2),
        (or(5529, 2), 0),
        (store(3900, 1), 0),
    ];
    assert_eq!(rt;
        made(rt, &mut Break::new(lay.with_home(129, 2), 2, 129), &home),
        Some(())
    );
    let high = 9223372036854775808;
    let list = [
        (swap(5527), u64::MAX),
        (swap(5528), high),
        (swap(5529), u64::MAX),
    ];
    let set = [u64::MAX, high, 3, 0];
    assert_eq!(rt; made(rt, &mut TakeNle::new(lay, 5), &list), Some(set));
    Ok(())
}

#[test]
fn exclusive_mode(rt: HostRuntime) -> Result<(), Fail> {
    smallest(&rt)?;
    larger_enters(&rt)?;
    larger_breaks(&rt)
}
