use dsm_clock::draw::Draw;
use dsm_clock::give::GiveTurn;
use dsm_clock::stamp::{Stamp, Which};
use dsm_clock::take::TakeTurn;
use dsm_words::layout::Layout;
use dsm_words::op::Op;
use dsm_words::phase::Phase;
use dsm_words::topology::Topology;
use dsm_words::turn::Turn;
use std::test::Fail;

// Two nodes of two processors, three pages of four words: the clocks stand at 91 and 92, the turns of the pages at 93
// to 95, those of the notices at 96 and 97.
#[test]
fn a_time_is_drawn(rt: HostRuntime) -> Result<(), Fail> {
    let lay = Layout::new(Topology::new(2, 2)?, 3, 4, 0, 0, 0);
    for answer in [1, 7, u64::MAX] {
        let mut draw = Draw::new(lay, 1);
        assert_eq!(rt; draw.next(), Op::Add { at: 92, k: 1 });
        assert_eq!(rt; draw.after(answer), Turn::Done(answer));
    }
    Ok(())
}

#[test]
fn a_time_is_noted(rt: HostRuntime) -> Result<(), Fail> {
    let lay = Layout::new(Topology::new(2, 2)?, 3, 4, 0, 0, 0);
    for (which, at) in [(Which::Update, 78), (Which::Flush, 84), (Which::Notice, 90)] {
        let mut stamp = Stamp::new(lay, which, 1, 2, 9);
        assert_eq!(rt; stamp.next(), Op::Store { at, v: 9 });
        assert_eq!(rt; stamp.after(5), Turn::Done(()));
    }
    Ok(())
}

#[test]
fn a_turn_is_tried_until_it_is_free(rt: HostRuntime) -> Result<(), Fail> {
    let lay = Layout::new(Topology::new(2, 2)?, 3, 4, 0, 0, 0);
    let mut take = TakeTurn::page(lay, 1, 2, 3);
    let op = Op::Exchange {
        at: 98,
        old: 0,
        new: 4,
    };
    assert_eq!(rt; take.next(), op);
    assert_eq!(rt; take.after(2), Turn::More);
    assert_eq!(rt; take.next(), op);
    assert_eq!(rt; take.after(0), Turn::Done(()));
    let mut give = GiveTurn::page(lay, 1, 2);
    assert_eq!(rt; give.next(), Op::Store { at: 98, v: 0 });
    assert_eq!(rt; give.after(0), Turn::Done(()));
    Ok(())
}

#[test]
fn notices_have_turns_of_their_own(rt: HostRuntime) -> Result<(), Fail> {
    let lay = Layout::new(Topology::new(2, 2)?, 3, 4, 0, 0, 0);
    let mut take = TakeTurn::notices(lay, 1, 0);
    let op = Op::Exchange {
        at: 100,
        old: 0,
        new: 1,
    };
    assert_eq!(rt; take.next(), op);
    assert_eq!(rt; take.after(u64::MAX), Turn::More);
    assert_eq!(rt; take.next(), op);
    assert_eq!(rt; take.after(0), Turn::Done(()));
    let mut give = GiveTurn::notices(lay, 1);
    assert_eq!(rt; give.next(), Op::Store { at: 100, v: 0 });
    assert_eq!(rt; give.after(1), Turn::Done(()));
    Ok(())
}
