// Threads of which one is held back for a while before one of its events, wherever that stands in the protocol. What the programs print
// and leave is the same.
use crate::asking::uncounted;
use crate::texts::{BESIDE, NEIGHBOURS};
use crate::threads::run_with;
use dsm_runner::gate::Gate;
use std::sync::Wait;
use std::sync::atomic::{AtomicU64, Ordering};
use std::test::Fail;
use std::thread;
use std::thread::Threads;

/// How many events processor 0 makes meanwhile.
const MEANWHILE: u64 = 200;

/// How often the gate looks for them. Then it lets go.
const LOOKS: u64 = 100_000;

/// It holds processor 2 before its event of this number, from 1, until processor 0 has made that many events more.
#[derive(Drop)]
struct Hold {
    event: u64,
    /// How many events processor 0 has made.
    made: AtomicU64,
    /// How often it held.
    held: AtomicU64,
}

impl Hold {
    fn before(event: u64) -> Hold {
        Hold {
            event,
            made: AtomicU64::new(0),
            held: AtomicU64::new(0),
        }
    }

    fn hold(&self) {
        self.held.fetch_add(1, Ordering::SeqCst);
        let until = self.made.load(Ordering::SeqCst).saturating_add(MEANWHILE);
        for _ in 0..LOOKS {
            if self.made.load(Ordering::SeqCst) >= until {
                break;
            }
            thread::yield_now();
        }
    }
}

impl Gate for Hold {
    fn pass(&self, p: u32, _done: u64, steps: u64) {
        if p == 0 {
            self.made.store(steps, Ordering::SeqCst);
        }
        if p == 2 && steps.saturating_add(1) == self.event {
            self.hold();
        }
    }
}

/// How often processor 2 was held, before the event of that number. The run must print and leave what is wanted.
fn holds<R: Threads + Wait + Sync + AllocGlobal>(
    rt: &R,
    text: &[u8],
    event: u64,
    wanted: &str,
) -> Result<u64, Fail> {
    let gate = Hold::before(event);
    let (done, written) = run_with(rt, &["run", "2x2"], text, &gate)?;
    if done.status != 0 || uncounted(&written) != wanted.as_bytes() {
        return Err("another answer".into());
    }
    Ok(gate.held.load(Ordering::SeqCst))
}

// It makes two events before its first store's fault, and that has more than six.
#[test]
fn a_neighbour_is_held(rt: HostRuntime) -> Result<(), Fail> {
    let wanted =
        "cashmere 2x2\nend 0 halted\nend 1 halted\nend 2 halted\nend 3 halted\nout 0 101\nout 1 102\nout 2 103\nout 3 100\npage 0 100 101 102 103 0 0 0 0\n";
    for event in 1..61 {
        let held = holds(&rt, NEIGHBOURS, event, wanted)?;
        assert!(rt; held == 1 || event > 8, "event {event}");
    }
    Ok(())
}

// It makes 407 events before its first fault, in which it takes the page away from the node of two writers.
#[test]
fn a_reader_is_held_beside_two_writers(rt: HostRuntime) -> Result<(), Fail> {
    let wanted =
        "cashmere 2x2\nend 0 halted\nend 1 halted\nend 2 halted\nend 3 halted\nout 2 300\nout 2 300\npage 0 0 0 0 0\npage 1 300 300 0 0\n";
    for event in 401..461 {
        let held = holds(&rt, BESIDE, event, wanted)?;
        assert!(rt; held == 1 || event > 408, "event {event}");
    }
    Ok(())
}
