use crate::making::made;
use dsm_directory::claim::Claim;
use dsm_directory::holder::Holder;
use dsm_directory::home::FindHome;
use dsm_directory::leave::Leave;
use dsm_directory::my_dir::MyDir;
use dsm_directory::register::Register;
use dsm_directory::row::Row;
use dsm_directory::sharers::Sharers;
use dsm_directory::withdraw::Withdraw;
use dsm_words::layout::Layout;
use dsm_words::op::Op;
use dsm_words::topology::Topology;
use std::test::Fail;

// One node with a page of one word: whether it has a twin stands at 3, its mapping at 4, its directory word at 5, its
// update time at 6 and the home at 16.
#[test]
fn one_node(rt: HostRuntime) -> Result<(), Fail> {
    let lay = Layout::new(Topology::new(1, 1)?, 1, 1, 0, 0, 0);
    for (own, holder) in [
        (0, None),
        (1, None),
        (2, Some(0)),
        (3, None),
        (u64::MAX, None),
    ] {
        let list = [(Op::Load { at: 5 }, own)];
        let row = Row {
            own,
            others: false,
            busy: 0,
        };
        assert_eq!(rt; made(&rt, &mut Sharers::new(lay, 0, 0), &list), Some(row));
        assert_eq!(rt; made(&rt, &mut MyDir::new(lay, 0, 0), &list), Some(own));
        assert_eq!(rt; made(&rt, &mut Holder::new(lay, 0), &list), Some(holder));
    }
    let list = [
        (Op::Store { at: 6, v: 0 }, 9),
        (Op::Store { at: 5, v: 1 }, 9),
    ];
    assert_eq!(rt; made(&rt, &mut Register::new(lay, 0, 0), &list), Some(()));
    assert_eq!(rt;
        made(
            &rt,
            &mut Claim::new(lay, 0, 0),
            &[(Op::Store { at: 5, v: 3 }, 9)]
        ),
        Some(())
    );
    assert_eq!(rt;
        made(
            &rt,
            &mut Withdraw::new(lay, 0, 0),
            &[(Op::Store { at: 5, v: 1 }, 9)]
        ),
        Some(())
    );
    for (word, answer, count) in [(1, 0, 1), (7, 0, 1), (0, 0, 2), (0, 1, 2), (0, 8, 2)] {
        let list = [
            (Op::Load { at: 16 }, word),
            (
                Op::Exchange {
                    at: 16,
                    old: 0,
                    new: 1,
                },
                answer,
            ),
        ];
        assert_eq!(rt;
            made(&rt, &mut FindHome::new(lay, 0, 0), &list[..count]),
            Some(0)
        );
    }
    for (mapping, twined, count, left) in [
        (0, 0, 3, true),
        (0, 1, 2, false),
        (1, 0, 1, false),
        (3, 0, 1, false),
    ] {
        let list = [
            (Op::Load { at: 4 }, mapping),
            (Op::Load { at: 3 }, twined),
            (Op::Store { at: 5, v: 0 }, 9),
        ];
        assert_eq!(rt;
            made(&rt, &mut Leave::new(lay, 0, 0), &list[..count]),
            Some(left)
        );
    }
    Ok(())
}

// Three nodes of two processors, 130 pages of three words. Of page 129 the directory words of the nodes stand at 3640,
// 3770 and 3900, and its home at 5660.
#[test]
fn three_nodes_look(rt: HostRuntime) -> Result<(), Fail> {
    let lay = Layout::new(Topology::new(3, 2)?, 130, 3, 0, 0, 0);
    for (words, others, busy, holder, count) in [
        ([0, 0, 0], false, 0, None, 3),
        ([0, 2, 0], false, 0, Some(1), 2),
        ([0, 3, 1], true, 0, None, 3),
        ([2, 1, 0], true, 1, Some(0), 1),
        ([0, 1, 3], true, 4, None, 3),
        ([3, 0, 2], true, 5, Some(2), 3),
        ([2, 2, 2], true, 5, Some(0), 1),
        ([9, 7, u64::MAX], true, 0, None, 3),
    ] {
        let [first, own, last] = words;
        let list = [
            (Op::Load { at: 3640 }, first),
            (Op::Load { at: 3770 }, own),
            (Op::Load { at: 3900 }, last),
        ];
        let row = Row { own, others, busy };
        assert_eq!(rt; made(&rt, &mut Sharers::new(lay, 1, 129), &list), Some(row));
        assert_eq!(rt;
            made(&rt, &mut Holder::new(lay, 129), &list[..count]),
            Some(holder)
        );
        assert_eq!(rt;
            made(&rt, &mut MyDir::new(lay, 1, 129), &list[1..2]),
            Some(own)
        );
    }
    for (word, answer, count, home) in [
        (1, 0, 1, 0),
        (3, 0, 1, 2),
        (4, 0, 1, 0),
        (u64::MAX, 0, 1, 2),
        (0, 0, 2, 1),
        (0, 1, 2, 0),
        (0, 3, 2, 2),
        (0, u64::MAX, 2, 2),
    ] {
        let list = [
            (Op::Load { at: 5660 }, word),
            (
                Op::Exchange {
                    at: 5660,
                    old: 0,
                    new: 2,
                },
                answer,
            ),
        ];
        assert_eq!(rt;
            made(&rt, &mut FindHome::new(lay, 1, 129), &list[..count]),
            Some(home)
        );
    }
    Ok(())
}

// Of node 1 and page 129 of the same cluster: the directory word stands at 3770, the update time at 4160, whether there is
// a twin at 2600, and the mappings of processors 2 and 3 at 3120 and 3250.
#[test]
fn three_nodes_store(rt: HostRuntime) -> Result<(), Fail> {
    let lay = Layout::new(Topology::new(3, 2)?, 130, 3, 0, 0, 0);
    let list = [
        (Op::Store { at: 4160, v: 0 }, 0),
        (Op::Store { at: 3770, v: 1 }, 0),
    ];
    assert_eq!(rt; made(&rt, &mut Register::new(lay, 1, 129), &list), Some(()));
    assert_eq!(rt;
        made(
            &rt,
            &mut Claim::new(lay, 1, 129),
            &[(Op::Store { at: 3770, v: 3 }, 0)]
        ),
        Some(())
    );
    assert_eq!(rt;
        made(
            &rt,
            &mut Withdraw::new(lay, 1, 129),
            &[(Op::Store { at: 3770, v: 1 }, 0)]
        ),
        Some(())
    );
    for (first, second, twined, count, left) in [
        (0, 0, 0, 4, true),
        (0, 0, 1, 3, false),
        (0, 0, 7, 3, false),
        (0, 3, 0, 2, false),
        (1, 0, 0, 2, false),
    ] {
        let list = [
            (Op::Load { at: 3120 }, first),
            (Op::Load { at: 3250 }, second),
            (Op::Load { at: 2600 }, twined),
            (Op::Store { at: 3770, v: 0 }, 0),
        ];
        assert_eq!(rt;
            made(&rt, &mut Leave::new(lay, 1, 129), &list[..count]),
            Some(left)
        );
    }
    Ok(())
}
