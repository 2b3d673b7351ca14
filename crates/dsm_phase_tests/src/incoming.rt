use crate::making::{load, made, store};
use dsm_incoming::merge::Merge;
use dsm_incoming::overwrite::Overwrite;
use dsm_words::layout::Layout;
use dsm_words::topology::Topology;
use std::process::Abort;
use std::test::Fail;

// One node, one page of one word: the frame stands at 1, the twin at 2.
fn smallest(rt: &impl Abort) -> Result<(), Fail> {
    let lay = Layout::new(Topology::new(1, 1)?, 1, 1, 0, 0, 0);
    assert_eq!(rt;
        made(
            rt,
            &mut Merge::new(lay, 0, 0),
            &[(load(1), 5), (load(2), 5)]
        ),
        Some(())
    );
    let differs = [
        (load(1), 5),
        (load(2), 4),
        (store(1, 5), 9),
        (store(2, 5), 9),
    ];
    assert_eq!(rt; made(rt, &mut Merge::new(lay, 0, 0), &differs), Some(()));
    assert_eq!(rt;
        made(
            rt,
            &mut Overwrite::new(lay, 0, 0),
            &[(load(1), 5), (store(1, 5), 9)]
        ),
        Some(())
    );
    Ok(())
}

// Three nodes, 130 pages of three words: of the last page node 2 has its frame at 1168 and its twin at 2338; its home is
// node 0, with its frame at 388, where it is not told to be node 1, with its frame at 778.
fn merges(rt: &impl Abort) -> Result<(), Fail> {
    let most = u64::MAX;
    let lay = Layout::new(Topology::new(3, 1)?, 130, 3, 0, 0, 0);
    let list = [
        (load(388), 7),
        (load(2338), 0),
        (store(1168, 7), most),
        (store(2338, 7), most),
        (load(389), 8),
        (load(2339), 8),
        (load(390), 0),
        (load(2340), most),
        (store(1170, 0), 0),
        (store(2340, 0), 0),
    ];
    assert_eq!(rt; made(rt, &mut Merge::new(lay, 2, 129), &list), Some(()));
    let told = [
        (load(778), 7),
        (load(2338), 7),
        (load(779), 7),
        (load(2339), 7),
        (load(780), most),
        (load(2340), 7),
        (store(1170, most), 1),
        (store(2340, most), 1),
    ];
    assert_eq!(rt;
        made(rt, &mut Merge::new(lay.with_home(129, 1), 2, 129), &told),
        Some(())
    );
    Ok(())
}

fn overwrites(rt: &impl Abort) -> Result<(), Fail> {
    let most = u64::MAX;
    let lay = Layout::new(Topology::new(3, 1)?, 130, 3, 0, 0, 0);
    let list = [
        (load(388), 7),
        (store(1168, 7), 7),
        (load(389), 0),
        (store(1169, 0), most),
        (load(390), most),
        (store(1170, most), 0),
    ];
    assert_eq!(rt; made(rt, &mut Overwrite::new(lay, 2, 129), &list), Some(()));
    let told = [
        (load(778), 1),
        (store(1168, 1), 2),
        (load(779), 3),
        (store(1169, 3), 4),
        (load(780), 5),
        (store(1170, 5), 6),
    ];
    assert_eq!(rt;
        made(
            rt,
            &mut Overwrite::new(lay.with_home(129, 1), 2, 129),
            &told
        ),
        Some(())
    );
    Ok(())
}

#[test]
fn words_are_got(rt: HostRuntime) -> Result<(), Fail> {
    smallest(&rt)?;
    merges(&rt)?;
    overwrites(&rt)
}
