use crate::making::made;
use dsm_frames::access::Access;
use dsm_frames::mapping::SetMap;
use dsm_words::layout::Layout;
use dsm_words::op::Op;
use dsm_words::topology::Topology;
use std::test::Fail;

// One node with a page of one word, which stands at 1; and three nodes of two processors, 130 pages of three words,
// where the frames stand from 1 on, those of node 2 from 781 on, and the mappings from 2731 on.
#[test]
fn phases_make_their_lists(rt: HostRuntime) -> Result<(), Fail> {
    let small = Layout::new(Topology::new(1, 1)?, 1, 1, 0, 0, 0);
    let large = Layout::new(Topology::new(3, 2)?, 130, 3, 0, 0, 0);
    for v in [0, 5, u64::MAX] {
        let list = [(Op::Load { at: 1 }, v)];
        assert_eq!(rt; made(&rt, &mut Access::load(small, 0, 0), &list), Some(v));
        let list = [(Op::Load { at: 781 + 389 }, v)];
        assert_eq!(rt; made(&rt, &mut Access::load(large, 2, 389), &list), Some(v));
        let list = [(Op::Store { at: 1, v }, 9)];
        assert_eq!(rt;
            made(&rt, &mut Access::store(small, 0, 0, v), &list),
            Some(v)
        );
        let list = [(Op::Store { at: 781 + 389, v }, 9)];
        assert_eq!(rt;
            made(&rt, &mut Access::store(large, 2, 389, v), &list),
            Some(v)
        );
    }
    for m in 0..4 {
        let list = [(Op::Store { at: 4, v: m }, 7)];
        assert_eq!(rt;
            made(&rt, &mut SetMap::new(small, 0, 0, m), &list),
            Some(())
        );
        let list = [(
            Op::Store {
                at: 2731 + 5 * 130 + 129,
                v: m,
            },
            7,
        )];
        assert_eq!(rt;
            made(&rt, &mut SetMap::new(large, 5, 129, m), &list),
            Some(())
        );
    }
    Ok(())
}
