use crate::making::made;
use dsm_notice::drain::Drain;
use dsm_notice::own::TakeOwn;
use dsm_notice::post::Post;
use dsm_notice::stale::Stale;
use dsm_words::layout::Layout;
use dsm_words::op::Op;
use dsm_words::topology::Topology;
use std::test::Fail;

// One node with a page of one word: its directory word stands at 5, its update time at 6, its notice time at 8, the clock
// at 9, the node's notices at 12 and the processor's at 13. There is no page but page 0.
#[test]
fn one_node(rt: HostRuntime) -> Result<(), Fail> {
    let lay = Layout::new(Topology::new(1, 1)?, 1, 1, 0, 0, 0);
    for word in [0, 1, 3, u64::MAX] {
        assert_eq!(rt;
            made(
                &rt,
                &mut Post::new(lay, 0, 0),
                &[(Op::Load { at: 5 }, word)]
            ),
            Some(0)
        );
    }
    for (bits, count) in [(0, 1), (6, 1), (1, 4), (u64::MAX, 4)] {
        let list = [
            (Op::Swap { at: 12, v: 0 }, bits),
            (Op::Add { at: 9, k: 1 }, 5),
            (Op::Store { at: 8, v: 5 }, 9),
            (Op::Or { at: 13, bits: 1 }, 9),
        ];
        assert_eq!(rt;
            made(&rt, &mut Drain::new(lay, 0), &list[..count]),
            Some(())
        );
    }
    for (bits, set) in [(0, 0), (2, 0), (3, 1), (u64::MAX, 1)] {
        let list = [(Op::Swap { at: 13, v: 0 }, bits)];
        assert_eq!(rt;
            made(&rt, &mut TakeOwn::new(lay, 0), &list),
            Some([set, 0, 0, 0])
        );
    }
    for (update, notice, stale) in [
        (0, 0, true),
        (0, u64::MAX, true),
        (1, 0, false),
        (5, 4, false),
        (5, 5, false),
        (5, 6, true),
        (u64::MAX, u64::MAX, false),
    ] {
        let list = [(Op::Load { at: 6 }, update), (Op::Load { at: 8 }, notice)];
        assert_eq!(rt; made(&rt, &mut Stale::new(lay, 0, 0), &list), Some(stale));
    }
    Ok(())
}

// Three nodes of two processors, 130 pages of three words. Page 129 is bit 1 of group 2. Its directory words stand at
// 3640, 3770 and 3900, and the notices of its group from node 1 to nodes 0 and 2 at 5472 and 5490.
#[test]
fn three_nodes_post(rt: HostRuntime) -> Result<(), Fail> {
    let lay = Layout::new(Topology::new(3, 2)?, 130, 3, 0, 0, 0);
    let [first, own, last] = [
        Op::Load { at: 3640 },
        Op::Load { at: 3770 },
        Op::Load { at: 3900 },
    ];
    let [to_first, to_last] = [Op::Or { at: 5472, bits: 2 }, Op::Or { at: 5490, bits: 2 }];
    let list = [(first, 1), (own, 1), (last, 1), (to_last, 0)];
    assert_eq!(rt; made(&rt, &mut Post::new(lay, 1, 129), &list), Some(1));
    let list = [(first, 2), (own, 0), (last, 0)];
    assert_eq!(rt; made(&rt, &mut Post::new(lay, 1, 129), &list), Some(0));
    let list = [
        (first, u64::MAX),
        (to_first, 2),
        (own, 7),
        (last, 3),
        (to_last, 5),
    ];
    assert_eq!(rt;
        made(&rt, &mut Post::new(lay.with_home(129, 1), 1, 129), &list),
        Some(2)
    );
    let list = [(first, 3), (to_first, 0), (own, 1), (last, 1)];
    assert_eq!(rt;
        made(&rt, &mut Post::new(lay.with_home(129, 2), 1, 129), &list),
        Some(1)
    );
    let list = [(Op::Load { at: 4160 }, 8), (Op::Load { at: 4940 }, 9)];
    assert_eq!(rt; made(&rt, &mut Stale::new(lay, 1, 129), &list), Some(true));
    Ok(())
}

// Of the same cluster: the notices for node 2 stand from 5485 on, three words from each node, its clock at 5073, its notice
// times from 4941 on, and the notices for its processors, 4 and 5, from 5506 and 5509 on.
#[test]
fn three_nodes_drain(rt: HostRuntime) -> Result<(), Fail> {
    let lay = Layout::new(Topology::new(3, 2)?, 130, 3, 0, 0, 0);
    let draw = Op::Add { at: 5073, k: 1 };
    let list = [
        (Op::Swap { at: 5485, v: 0 }, 0),
        (Op::Swap { at: 5486, v: 0 }, 0x8000000000000001),
        (draw, 7),
        (Op::Store { at: 5005, v: 7 }, 0),
        (Op::Or { at: 5507, bits: 1 }, 0),
        (Op::Or { at: 5510, bits: 1 }, 0),
        (draw, 8),
        (Op::Store { at: 5068, v: 8 }, 0),
        (
            Op::Or {
                at: 5507,
                bits: 0x8000000000000000,
            },
            1,
        ),
        (
            Op::Or {
                at: 5510,
                bits: 0x8000000000000000,
            },
            1,
        ),
        (Op::Swap { at: 5487, v: 0 }, u64::MAX),
        (draw, u64::MAX),
        (
            Op::Store {
                at: 5069,
                v: u64::MAX,
            },
            0,
        ),
        (Op::Or { at: 5508, bits: 1 }, 0),
        (Op::Or { at: 5511, bits: 1 }, 0),
        (draw, 0),
        (Op::Store { at: 5070, v: 0 }, 0),
        (Op::Or { at: 5508, bits: 2 }, 0),
        (Op::Or { at: 5511, bits: 2 }, 0),
        (Op::Swap { at: 5488, v: 0 }, 0),
        (Op::Swap { at: 5489, v: 0 }, 0),
        (Op::Swap { at: 5490, v: 0 }, 4),
        (Op::Swap { at: 5491, v: 0 }, 0),
        (Op::Swap { at: 5492, v: 0 }, 0),
        (Op::Swap { at: 5493, v: 0 }, 0),
    ];
    assert_eq!(rt; made(&rt, &mut Drain::new(lay, 2), &list), Some(()));
    let list = [
        (Op::Swap { at: 5509, v: 0 }, 7),
        (Op::Swap { at: 5510, v: 0 }, u64::MAX),
        (Op::Swap { at: 5511, v: 0 }, u64::MAX),
    ];
    assert_eq!(rt;
        made(&rt, &mut TakeOwn::new(lay, 5), &list),
        Some([7, u64::MAX, 3, 0])
    );
    Ok(())
}
