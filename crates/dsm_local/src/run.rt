ghost use Rattle.std.specs.Prelude.{◌≡◌, ◌↔◌, IsTrue};
ghost use Rattle.dsm_local.specs.Local.{Local, LocalTo, MayEnd, MayWait, Stops, setting_of};

use crate::action::Action;
use crate::end::End;
use crate::following::next_step;
use crate::reader::Reader;
use crate::setting::Setting;
use crate::stand::Stand;
use dsm_entry::trace::Trace;
use dsm_isa::code::Code;
use dsm_isa::program::Program;

/// Whether the trace is what processor `p` of `procs` does, who may do `turns` instructions and is answered
/// as the trace says, with this end. None means that it has not ended yet. It takes no memory, and follows
/// each instruction once.
pub fn is_run(
    program: &Program,
    p: u32,
    procs: u32,
    turns: u64,
    trace: &Trace,
    end: Option<End>,
) -> bool
    ensures { IsTrue result ↔ Local program.now p procs turns trace.now.list end }
{
    follows(
        program.code(),
        setting(program, p, procs, turns),
        trace,
        end,
    )
}

/// Whether the trace is what a reader of the code does, with this end.
fn follows(code: &Code, setting: Setting, trace: &Trace, end: Option<End>) -> bool
    ensures { IsTrue result ↔ LocalTo code.now setting trace.now.list end }
{
    let count = trace.len();
    let mut stand = Stand::Before(Reader::new());
    let mut taken = 0;
    while let Some(step) = next_step(code, setting, stand, trace.get(taken)) {
        stand = step.stand;
        taken += step.takes;
    }
    if taken < count {
        return false;
    }
    may_end(code, setting, stand, end)
}

/// What processor `p` of `procs` is told.
fn setting(program: &Program, p: u32, procs: u32, turns: u64) -> Setting
    ensures { result ≡ setting_of program.now p procs turns }
{
    let shape = program.shape();
    Setting {
        size: shape.pages * shape.words,
        p,
        procs,
        turns,
    }
}

/// Whether a reader that stands here may have this end, or none yet.
fn may_end(code: &Code, setting: Setting, stand: Stand, end: Option<End>) -> bool
    ensures { IsTrue result ↔ MayEnd code.now setting stand end }
{
    let Some(end) = end else {
        return true;
    };
    match stand {
        Stand::Before(reader) => stops(reader.place, reader.next(code, setting), end),
        Stand::Met { .. } => matches!(end, End::Looked | End::Stopped { .. } | End::NoMemory),
        Stand::Arrived => matches!(end, End::Looked | End::Stopped { .. } | End::NoMemory),
        Stand::Passed => matches!(end, End::Halted | End::NoMemory),
    }
}

/// Whether a reader before the instruction at this place, whose action this is, may have this end.
fn stops(place: u32, action: Action, end: End) -> bool
    ensures { IsTrue result ↔ Stops place action end }
{
    match end {
        End::Trapped { at, kind } => at == place && action == Action::Trap { kind },
        End::Spent => action == Action::Spend,
        End::Looked | End::Stopped { .. } => may_wait(action),
        End::NoMemory => true,
        End::Halted => false,
    }
}

/// Whether an action may have to wait before its entry.
fn may_wait(action: Action) -> bool
    ensures { IsTrue result ↔ MayWait action }
{
    matches!(action, Action::TakeLock { .. } | Action::WaitFlag { .. })
}
