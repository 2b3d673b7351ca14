use dsm_sync::arrive::Arrive;
use dsm_sync::got::Got;
use dsm_sync::lock::LockTry;
use dsm_sync::look::Look;
use dsm_sync::set::SetFlag;
use dsm_sync::unlock::Unlock;
use dsm_words::layout::Layout;
use dsm_words::op::Op;
use dsm_words::phase::Phase;
use dsm_words::topology::Topology;
use dsm_words::turn::Turn;
use std::test::Fail;

// Two nodes of two processors, three pages of four words: the locks stand at 113 and 114, behind six words for turns of
// pages, the barriers at 115 to 117, the flags at 118 to 121, the closing barrier at 122.
#[test]
fn a_held_lock_is_not_ready(rt: HostRuntime) -> Result<(), Fail> {
    let lay = Layout::new(Topology::new(2, 2)?, 3, 4, 2, 3, 4);
    for word in [1, 7, u64::MAX] {
        let mut lock = LockTry::new(lay, 1);
        assert_eq!(rt; lock.next(), Op::Load { at: 114 });
        assert_eq!(rt; lock.after(word), Turn::Done(Got::Unready));
    }
    Ok(())
}

#[test]
fn a_free_lock_is_taken_where_the_exchange_wins(rt: HostRuntime) -> Result<(), Fail> {
    let lay = Layout::new(Topology::new(2, 2)?, 3, 4, 2, 3, 4);
    for (old, new, answer, got) in [
        (0, 1, 0, Got::Ready { c: 0 }),
        (6, 7, 6, Got::Ready { c: 3 }),
        (6, 7, 7, Got::Unready),
        (6, 7, 8, Got::Unready),
    ] {
        let mut lock = LockTry::new(lay, 0);
        assert_eq!(rt; lock.next(), Op::Load { at: 113 });
        if let Turn::Done(_) = lock.after(old) {
            return Err("it is free".into());
        }
        assert_eq!(rt; lock.next(), Op::Exchange { at: 113, old, new });
        assert_eq!(rt; lock.after(answer), Turn::Done(got));
    }
    Ok(())
}

#[test]
fn a_lock_is_freed(rt: HostRuntime) -> Result<(), Fail> {
    let lay = Layout::new(Topology::new(2, 2)?, 3, 4, 2, 3, 4);
    for (k, v) in [(0, 2), (3, 8), (u64::MAX / 2, 0), (u64::MAX, 0)] {
        let mut unlock = Unlock::new(lay, 1, k);
        assert_eq!(rt; unlock.next(), Op::Store { at: 114, v });
        assert_eq!(rt; unlock.after(0), Turn::Done(()));
    }
    Ok(())
}

#[test]
fn looks(rt: HostRuntime) -> Result<(), Fail> {
    let lay = Layout::new(Topology::new(2, 2)?, 3, 4, 2, 3, 4);
    let need = 4;
    for (word, barrier, flag) in [
        (3, Got::Unready, Got::Unready),
        (4, Got::Ready { c: 4 }, Got::Ready { c: 4 }),
        (5, Got::Ready { c: 4 }, Got::Ready { c: 5 }),
    ] {
        let mut look = Look::barrier(lay, 2, need);
        assert_eq!(rt; look.next(), Op::Load { at: 117 });
        assert_eq!(rt; look.after(word), Turn::Done(barrier));
        let mut look = Look::flag(lay, 3, need);
        assert_eq!(rt; look.next(), Op::Load { at: 121 });
        assert_eq!(rt; look.after(word), Turn::Done(flag));
        let mut look = Look::close(lay, need);
        assert_eq!(rt; look.next(), Op::Load { at: 122 });
        assert_eq!(rt; look.after(word), Turn::Done(barrier));
    }
    Ok(())
}

#[test]
fn signals_are_numbered(rt: HostRuntime) -> Result<(), Fail> {
    let lay = Layout::new(Topology::new(2, 2)?, 3, 4, 2, 3, 4);
    for number in [0, 9, u64::MAX] {
        let mut arrive = Arrive::barrier(lay, 2);
        assert_eq!(rt; arrive.next(), Op::Add { at: 117, k: 1 });
        assert_eq!(rt; arrive.after(number), Turn::Done(number));
        let mut close = Arrive::close(lay);
        assert_eq!(rt; close.next(), Op::Add { at: 122, k: 1 });
        assert_eq!(rt; close.after(number), Turn::Done(number));
        let mut set = SetFlag::new(lay, 3);
        assert_eq!(rt; set.next(), Op::Add { at: 121, k: 1 });
        assert_eq!(rt; set.after(number), Turn::Done(number));
    }
    Ok(())
}
