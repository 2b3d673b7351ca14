use crate::making::made;
use dsm_twin::drop::DropTwin;
use dsm_twin::has::HasTwin;
use dsm_twin::make::MakeTwin;
use dsm_words::layout::Layout;
use dsm_words::op::Op;
use dsm_words::topology::Topology;
use std::test::Fail;

// One node with a page of one word: its frame stands at 1, its twin at 2, whether there is one at 3, its mapping at 4 and
// its directory word at 5.
#[test]
fn one_node(rt: HostRuntime) -> Result<(), Fail> {
    let lay = Layout::new(Topology::new(1, 1)?, 1, 1, 0, 0, 0);
    for (word, has) in [(0, false), (1, true), (2, false), (u64::MAX, false)] {
        let list = [(Op::Load { at: 3 }, word)];
        assert_eq!(rt; made(&rt, &mut HasTwin::new(lay, 0, 0), &list), Some(has));
    }
    let list = [
        (Op::Load { at: 1 }, 7),
        (Op::Store { at: 2, v: 7 }, 9),
        (Op::Store { at: 3, v: 1 }, 9),
    ];
    assert_eq!(rt; made(&rt, &mut MakeTwin::new(lay, 0, 0), &list), Some(()));
    for (word, count, dropped) in [
        (0, 3, true),
        (1, 2, true),
        (2, 1, false),
        (3, 2, true),
        (u64::MAX, 2, true),
    ] {
        let list = [
            (Op::Load { at: 4 }, word),
            (Op::Store { at: 3, v: 0 }, 9),
            (Op::Store { at: 5, v: 0 }, 9),
        ];
        assert_eq!(rt;
            made(&rt, &mut DropTwin::new(lay, 0, 0), &list[..count]),
            Some(dropped)
        );
    }
    Ok(())
}

// Three nodes of two processors, 130 pages of three words. The frame of node 1 and page 129 stands from 778 on, its twin
// from 1948 on, and whether there is one at 2600. For node 2 and page 129 that stands at 2730, the mappings of
// processors 4 and 5 at 3380 and 3510, and the directory word at 3900.
#[test]
fn three_nodes(rt: HostRuntime) -> Result<(), Fail> {
    let lay = Layout::new(Topology::new(3, 2)?, 130, 3, 0, 0, 0);
    let list = [(Op::Load { at: 2730 }, 1)];
    assert_eq!(rt;
        made(&rt, &mut HasTwin::new(lay, 2, 129), &list),
        Some(true)
    );
    let list = [
        (Op::Load { at: 778 }, 7),
        (Op::Store { at: 1948, v: 7 }, 0),
        (Op::Load { at: 779 }, 0),
        (Op::Store { at: 1949, v: 0 }, 5),
        (Op::Load { at: 780 }, u64::MAX),
        (
            Op::Store {
                at: 1950,
                v: u64::MAX,
            },
            0,
        ),
        (Op::Store { at: 2600, v: 1 }, 0),
    ];
    assert_eq!(rt; made(&rt, &mut MakeTwin::new(lay, 1, 129), &list), Some(()));
    let stores = [
        (Op::Store { at: 2730, v: 0 }, 0),
        (Op::Store { at: 3900, v: 0 }, 0),
    ];
    for (first, second, count, dropped) in [
        (0, 0, 4, true),
        (0, 1, 3, true),
        (3, 0, 3, true),
        (9, 9, 3, true),
        (2, 0, 2, false),
        (0, 2, 2, false),
        (2, 2, 2, false),
    ] {
        let list = [
            (Op::Load { at: 3380 }, first),
            (Op::Load { at: 3510 }, second),
            stores[0],
            stores[1],
        ];
        assert_eq!(rt;
            made(&rt, &mut DropTwin::new(lay, 2, 129), &list[..count]),
            Some(dropped)
        );
    }
    Ok(())
}
