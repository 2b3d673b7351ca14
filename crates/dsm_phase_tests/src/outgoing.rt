use crate::making::{load, made, store};
use dsm_outgoing::flush::Flush;
use dsm_outgoing::last::LastFlush;
use dsm_words::layout::Layout;
use dsm_words::phase::Phase;
use dsm_words::topology::Topology;
use dsm_words::turn::Turn;
use std::process::Abort;
use std::test::Fail;

// One node, one page of one word: the frame stands at 1, the twin at 2.
fn smallest(rt: &impl Abort) -> Result<(), Fail> {
    let lay = Layout::new(Topology::new(1, 1)?, 1, 1, 0, 0, 0);
    assert_eq!(rt;
        made(
            rt,
            &mut Flush::new(lay, 0, 0),
            &[(load(1), 5), (load(2), 5)]
        ),
        Some(())
    );
    let differs = [
        (load(1), 5),
        (load(2), 4),
        (store(2, 5), 9),
        (store(1, 5), 9),
    ];
    assert_eq!(rt; made(rt, &mut Flush::new(lay, 0, 0), &differs), Some(()));
    Ok(())
}

// Three nodes, 130 pages of three words: of the last page node 2 has its frame at 1168 and its twin at 2338; its home is
// node 0, with its frame at 388, where it is not told to be node 1, with its frame at 778.
fn larger(rt: &impl Abort) -> Result<(), Fail> {
    let most = u64::MAX;
    let lay = Layout::new(Topology::new(3, 1)?, 130, 3, 0, 0, 0);
    let list = [
        (load(1168), 7),
        (load(2338), 0),
        (store(2338, 7), most),
        (store(388, 7), most),
        (load(1169), 8),
        (load(2339), 8),
        (load(1170), 0),
        (load(2340), most),
        (store(2340, 0), 0),
        (store(390, 0), 0),
    ];
    assert_eq!(rt; made(rt, &mut Flush::new(lay, 2, 129), &list), Some(()));
    let told = [
        (load(1168), 7),
        (load(2338), 7),
        (load(1169), 7),
        (load(2339), 7),
        (load(1170), most),
        (load(2340), 7),
        (store(2340, most), 1),
        (store(780, most), 1),
    ];
    assert_eq!(rt;
        made(rt, &mut Flush::new(lay.with_home(129, 1), 2, 129), &told),
        Some(())
    );
    assert_eq!(rt;
        made(rt, &mut Flush::new(lay.with_home(128, 1), 2, 129), &list),
        Some(())
    );
    Ok(())
}

#[test]
fn changed_words_are_sent(rt: HostRuntime) -> Result<(), Fail> {
    smallest(&rt)?;
    larger(&rt)
}

#[test]
fn the_last_flush_is_loaded(rt: HostRuntime) -> Result<(), Fail> {
    let one = Layout::new(Topology::new(1, 1)?, 1, 1, 0, 0, 0);
    let three = Layout::new(Topology::new(3, 1)?, 130, 3, 0, 0, 0);
    for time in [0, 7, u64::MAX] {
        let mut last = LastFlush::new(one, 0, 0);
        assert_eq!(rt; last.next(), load(7));
        assert_eq!(rt; last.after(time), Turn::Done(time));
        let mut last = LastFlush::new(three, 2, 129);
        assert_eq!(rt; last.next(), load(4290));
        assert_eq!(rt; last.after(time), Turn::Done(time));
    }
    Ok(())
}
