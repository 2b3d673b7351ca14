ghost use Rattle.std.specs.Prelude.{◌≡◌, ◌+◌, ◌<◌, ◌^◌, IfSome};
ghost use Rattle.dsm_local.specs.Following.{silent, taking, follow, follow_arrival, follow_pass, follow_leaving, step_of, left};
ghost use Rattle.dsm_local.specs.Readers.{moved, GoesOn};

use crate::action::Action;
use crate::reader::Reader;
use crate::setting::Setting;
use crate::stand::Stand;
use dsm_entry::entry::{Entry, Obj};
use dsm_isa::code::Code;
use dsm_isa::reg::Reg;

/// Where a reader stands behind a step, and how many entries the step takes.
#[derive(Clone, Copy)]
pub struct Step {
    pub stand: Stand,
    pub takes: u64,
}

/// The step of a reader, where the trace goes on with this entry or ends, and None where it has none.
pub fn next_step(code: &Code, setting: Setting, stand: Stand, next: Option<Entry>) -> Option<Step>
    ensures step { result ≡ step_of code.now setting stand next }
    ensures fewer { IfSome result (λ s. left setting.turns s.stand < left setting.turns stand + s.takes) }
{
    match stand {
        Stand::Before(reader) => follow(reader, reader.next(code, setting), next),
        Stand::Met { reader, b } => leave(reader, b, next),
        Stand::Arrived => pass(next),
        Stand::Passed => None,
    }
}

/// The step that does this action.
fn follow(mut reader: Reader, action: Action, next: Option<Entry>) -> Option<Step>
    requires place { GoesOn action → reader.place + 1 < 2 ^ 32 }
    requires done { GoesOn action → reader.done + 1 < 2 ^ 64 }
    ensures { result ≡ follow reader action next }
{
    match action {
        Action::Set { d, v } => {
            reader.give(d, v);
            silent(Stand::Before(reader))
        }
        Action::Jump { to } => {
            reader.jump(to);
            silent(Stand::Before(reader))
        }
        Action::LoadWord { d, w } => load(reader, d, w, next),
        Action::StoreWord { w, v } if next == Some(Entry::Store { w, v }) => behind(reader),
        Action::Print { v } if next == Some(Entry::Out { v }) => behind(reader),
        Action::TakeLock { l } => lock(reader, l, next),
        Action::GiveLock { l, k } => unlock(reader, l, k, next),
        Action::RaiseFlag { f } => raise(reader, f, next),
        Action::WaitFlag { f, need } => wait(reader, f, need, next),
        Action::Meet { b } => meet(reader, b, next),
        Action::Arrive => arrive(next),
        _ => None,
    }
}

/// The step of an instruction that is done with its entry.
fn behind(mut reader: Reader) -> Option<Step>
    requires place { reader.place + 1 < 2 ^ 32 }
    requires done { reader.done + 1 < 2 ^ 64 }
    ensures { result ≡ taking (Stand.Before (moved reader)) }
{
    reader.move_on();
    taking(Stand::Before(reader))
}

/// A load of word `w` into register `d`.
fn load(mut reader: Reader, d: Reg, w: u32, next: Option<Entry>) -> Option<Step>
    requires place { reader.place + 1 < 2 ^ 32 }
    requires done { reader.done + 1 < 2 ^ 64 }
    ensures { result ≡ follow reader (Action.LoadWord d w) next }
{
    match next {
        Some(Entry::Load { w: told, v }) if told == w => {
            reader.give(d, v);
            taking(Stand::Before(reader))
        }
        _ => None,
    }
}

/// The pass of lock `l`.
fn lock(mut reader: Reader, l: u32, next: Option<Entry>) -> Option<Step>
    requires place { reader.place + 1 < 2 ^ 32 }
    requires done { reader.done + 1 < 2 ^ 64 }
    ensures { result ≡ follow reader (Action.TakeLock l) next }
{
    match next {
        Some(
            Entry::Pass {
                o: Obj::Lock(told),
                c,
            },
        ) if told == l => {
            reader.open(l, c);
            behind(reader)
        }
        _ => None,
    }
}

/// The signal of lock `l`, whose open pass has the count `k`.
fn unlock(mut reader: Reader, l: u32, k: u64, next: Option<Entry>) -> Option<Step>
    requires place { reader.place + 1 < 2 ^ 32 }
    requires done { reader.done + 1 < 2 ^ 64 }
    ensures { result ≡ follow reader (Action.GiveLock l k) next }
{
    match next {
        Some(
            Entry::Signal {
                o: Obj::Lock(told),
                j,
            },
        ) if told == l && j == k => {
            reader.close(l);
            behind(reader)
        }
        _ => None,
    }
}

/// The signal of flag `f`.
fn raise(reader: Reader, f: u32, next: Option<Entry>) -> Option<Step>
    requires place { reader.place + 1 < 2 ^ 32 }
    requires done { reader.done + 1 < 2 ^ 64 }
    ensures { result ≡ follow reader (Action.RaiseFlag f) next }
{
    match next {
        Some(
            Entry::Signal {
                o: Obj::Flag(told),
                ..
            },
        ) if told == f => behind(reader),
        _ => None,
    }
}

/// The pass of flag `f`, which needs so many signals.
fn wait(reader: Reader, f: u32, need: u64, next: Option<Entry>) -> Option<Step>
    requires place { reader.place + 1 < 2 ^ 32 }
    requires done { reader.done + 1 < 2 ^ 64 }
    ensures { result ≡ follow reader (Action.WaitFlag f need) next }
{
    match next {
        Some(
            Entry::Pass {
                o: Obj::Flag(told),
                c,
            },
        ) if told == f && need <= c => behind(reader),
        _ => None,
    }
}

/// The arrival at barrier `b`.
fn meet(mut reader: Reader, b: u32, next: Option<Entry>) -> Option<Step>
    requires place { reader.place + 1 < 2 ^ 32 }
    requires done { reader.done + 1 < 2 ^ 64 }
    ensures { result ≡ follow reader (Action.Meet b) next }
{
    match next {
        Some(
            Entry::Signal {
                o: Obj::Barrier(told),
                ..
            },
        ) if told == b => {
            reader.move_on();
            taking(Stand::Met { reader, b })
        }
        _ => None,
    }
}

/// The pass of barrier `b`.
fn leave(reader: Reader, b: u32, next: Option<Entry>) -> Option<Step>
    ensures { result ≡ follow_leaving reader b next }
{
    match next {
        Some(
            Entry::Pass {
                o: Obj::Barrier(told),
                ..
            },
        ) if told == b => taking(Stand::Before(reader)),
        _ => None,
    }
}

/// The arrival at the closing barrier.
fn arrive(next: Option<Entry>) -> Option<Step>
    ensures { result ≡ follow_arrival next }
{
    match next {
        Some(Entry::Signal { o: Obj::Close, .. }) => taking(Stand::Arrived),
        _ => None,
    }
}

/// The pass of the closing barrier.
fn pass(next: Option<Entry>) -> Option<Step>
    ensures { result ≡ follow_pass next }
{
    match next {
        Some(Entry::Pass { o: Obj::Close, .. }) => taking(Stand::Passed),
        _ => None,
    }
}

/// A step that takes no entry.
fn silent(stand: Stand) -> Option<Step>
    ensures { result ≡ silent stand }
{
    Some(Step { stand, takes: 0 })
}

/// A step that takes one.
fn taking(stand: Stand) -> Option<Step>
    ensures { result ≡ taking stand }
{
    Some(Step { stand, takes: 1 })
}
