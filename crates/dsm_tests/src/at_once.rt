// Four processors whose events come together, each of which waits for the others' of its number: fewer than four threads can't do it.
use crate::asking::uncounted;
use crate::threads::run_with;
use dsm_runner::gate::Gate;
use std::sync::atomic::{AtomicBool, AtomicU64, Ordering};
use std::test::Fail;
use std::thread;

/// How many events of each come together.
const EVENTS: usize = 20;

/// The four processors, a bit for each.
const ALL: u64 = 15;

/// How often the gate looks for the others, before it gives up.
const LOOKS: u64 = 500_000_000;

/// How many looks come between two moments at which another thread may have this one's processor.
const PATIENCE: u64 = 64;

/// It holds each processor before each of these events until all have come to theirs.
#[derive(Drop)]
struct Together {
    /// For each event those that have come to it.
    come: Vec<AtomicU64>,
    late: AtomicBool,
}

impl Together {
    fn wait(&self, come: &AtomicU64) {
        for look in 0..LOOKS {
            if come.load(Ordering::SeqCst) == ALL {
                return;
            }
            if look % PATIENCE == 0 {
                thread::yield_now();
            }
        }
        self.late.store(true, Ordering::SeqCst);
    }
}

impl Gate for Together {
    fn pass(&self, p: u32, _done: u64, steps: u64) {
        if let Some(come) = self.come.get(steps as usize) {
            come.fetch_or(1 << (p % 4), Ordering::SeqCst);
            self.wait(come);
        }
    }
}

const TWENTY: &[u8] =
    b"li r1 0\nli r1 0\nli r1 0\nli r1 0\nli r1 0\nli r1 0\nli r1 0\nli r1 0\nli r1 0\nli r1 0\nli r1 0\nli r1 0\nli r1 0\nli r1 0\nli r1 0\nli r1 0\nli r1 0\nli r1 0\nli r1 0\nli r1 0\nhalt\n";

#[test]
fn four_threads_at_once(rt: HostRuntime) -> Result<(), Fail> {
    let mut come = Vec::new(rt.alloc());
    for _ in 0..EVENTS {
        come.push(AtomicU64::new(0))?;
    }
    let gate = Together {
        come,
        late: AtomicBool::new(false),
    };
    let (done, written) = run_with(&rt, &["run", "1x4"], TWENTY, &gate)?;
    assert_eq!(rt; done.status, 0);
    assert!(rt;
        uncounted(&written).starts_with(
            b"cashmere 1x4\nend 0 halted\nend 1 halted\nend 2 halted\nend 3 halted\npage 0 0"
        )
    );
    assert!(rt; !gate.late.load(Ordering::SeqCst));
    for (event, come) in gate.come.iter().enumerate() {
        assert_eq!(rt; come.load(Ordering::SeqCst), ALL, "event {event}");
    }
    Ok(())
}
