ghost use Rattle.std.specs.Prelude.{◌≡◌, ◌↔◌, IsTrue};
ghost use Rattle.dsm_runs.specs.Outcomes.{AllHalted, SomeWants};

use dsm_entry::trace::Trace;
use dsm_local::end::End;
use dsm_protocol::counts::Counts;
use std::marker::Model;

/// What a run leaves: the trace and the end of each processor, the words of memory in order of their addresses, each
/// as its home has it, and the counts of all processors together. An end is None where that processor has not ended.
#[derive(Drop)]
pub struct Ran {
    pub traces: Vec<Trace>,
    pub ends: Vec<Option<End>>,
    pub pages: Vec<u64>,
    pub counts: Counts,
}

impl Model for Ran {
    ghost use Rattle.std.specs.Prelude.{map};
    ghost use Rattle.dsm_runs.specs.Outcomes.{Ran as Left};

    ghost Value = { Left };

    ghost view = { λ r. record { traces = map (λ t. t.list) r.traces.items; ends = r.ends.items; pages = r.pages.items; counts = r.counts } };
}

impl Ran {
    /// Whether every processor halted.
    pub fn is_halted(&self) -> bool
        ensures { IsTrue result ↔ AllHalted self.now.ends }
    {
        self.ends.iter().all(|end| *end == Some(End::Halted))
    }

    /// Whether some processor ended for want of memory.
    pub fn wants_memory(&self) -> bool
        ensures { IsTrue result ↔ SomeWants self.now.ends }
    {
        self.ends.contains(&Some(End::NoMemory))
    }
}
