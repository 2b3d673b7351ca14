// What stands before each event of a threaded run.

/// It is called before each event of processor `p`, with the instructions that this processor has done and the events that
/// it has made; the latter number stops at 2^64 - 1. It may wait.
pub trait Gate {
    fn pass(&self, p: u32, done: u64, steps: u64);
}

/// It lets everyone pass at once.
pub struct OpenGate;

impl Gate for OpenGate {
    fn pass(&self, _p: u32, _done: u64, _steps: u64) {}
}
