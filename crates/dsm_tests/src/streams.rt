// Streams that fail at one of their calls: that this call was made is what ends the run, and nothing else does.
use crate::asking::{SIM, answer, line};
use crate::texts::{FIRST, FIRST_COUNTS, FIRST_REPORT};
use dsm_io::{NullSink, SureSource};
use dsm_top::planning::needs_threads;
use dsm_top::top::still;
use std::alloc::Global;
use std::test::Fail;

/// The whole report of the first program.
fn whole(alloc: Global) -> Result<Vec<u8>, Fail> {
    let mut text = FIRST_REPORT.as_bytes().to_vec(alloc)?;
    text.extend_from_slice(FIRST_COUNTS.as_bytes())?;
    Ok(text)
}

// The text has 59 bytes and comes in pieces of ten. With the one that meets its end there are seven reads.
#[test]
fn each_read_fails(rt: HostRuntime) -> Result<(), Fail> {
    let report = whole(rt.alloc())?;
    for call in 1..10 {
        let (status, written) = answer(rt.alloc(), SIM, FIRST, (10, &[call]), (4096, &[]))?;
        let (wanted, text): (u8, &[u8]) = if call <= 7 {
            (4, &[])
        } else {
            (0, report.as_slice())
        };
        assert_eq!(rt; status, wanted, "read {call}");
        assert!(rt; written.as_slice() == text, "read {call}");
    }
    Ok(())
}

// The report has 245 bytes and goes in pieces of 64: behind four writes the fifth call finishes.
#[test]
fn each_write_fails(rt: HostRuntime) -> Result<(), Fail> {
    let report = whole(rt.alloc())?;
    let calls: [(u64, u8, usize); 8] = [
        (1, 5, 0),
        (2, 5, 64),
        (3, 5, 128),
        (4, 5, 192),
        (5, 5, 245),
        (6, 0, 245),
        (7, 0, 245),
        (8, 0, 245),
    ];
    for (call, wanted, size) in calls {
        let (status, written) = answer(rt.alloc(), SIM, FIRST, (4096, &[]), (64, &[call]))?;
        assert_eq!(rt; status, wanted, "call {call}");
        assert_eq!(rt; written.len(), size, "call {call}");
        assert!(rt; report.as_slice().starts_with(&written), "call {call}");
    }
    Ok(())
}

// A source that never fails, and a sink that keeps nothing: what ran is seen all the same.
#[test]
fn no_call_can_fail(rt: HostRuntime) -> Result<(), Fail> {
    let words = line(rt.alloc(), SIM)?;
    if needs_threads(words.as_slice()) {
        return Err("these words ask for threads".into());
    }
    let mut source = SureSource::new(FIRST.to_vec(rt.alloc())?);
    let mut sink = NullSink::new();
    let done = still(rt.alloc(), words.as_slice(), &mut source, &mut sink);
    assert_eq!(rt; done.status, 0);
    let ran = done.ran.ok_or("no run")?;
    assert!(rt; ran.is_halted());
    assert_eq!(rt; ran.pages.as_slice(), [0, 0, 7, 0].as_slice());
    Ok(())
}
