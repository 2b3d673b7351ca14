ghost use Rattle.std.specs.Prelude.{◌≡◌, ◌≤◌, ◌⊎◌, IsOk, IsErr, IsSomeAnd, IfOk, IfErr, IfSome, None};
ghost use Rattle.dsm_runs.specs.Outcomes.{AllHalted, SomeWants};
ghost use Rattle.dsm_top.specs.Plans.{texts, PlanOf, NeedsNoThreads};
ghost use Rattle.dsm_top.specs.Refusals.{refused_line, kind_name as name_of_kind};
ghost use Rattle.dsm_top.specs.Answer.{WritesLine, Answers, Takes, IsToGenerate};
ghost use Rattle.dsm_top.specs.Run.{IsRunnable};
ghost use Rattle.dsm_top.specs.Done.{IsDone, Concludes};
ghost use Rattle.dsm_top.specs.Streams.{reading, writing};

use crate::answering::{Answer, answer_by_threads, answer_to};
use crate::planning::plan;
use crate::plans::Plan;
use crate::reading::{Unread, take_program};
use crate::refusal::{Line, kind_name, refuse_line, refuse_word};
use dsm_asm::fault::AsmFault;
use dsm_core::ran::Ran;
use dsm_entry::entry::NoMemory;
use dsm_io::{Sink, Source, write_all};
use dsm_isa::program::Program;
use dsm_runner::gate::Gate;
use std::alloc::Global;
use std::sync::Wait;
use std::thread::Threads;

/// How the top call ended.
#[derive(Drop)]
pub struct Done {
    /// The exit status, 0 to 7.
    pub status: u8,
    /// What the run left, where there was one whose report was made.
    pub ran: Option<Ran>,
}

/// Does what the words of the command line ask for, on this thread: reads the program from the source, or generates it, and
/// writes the answer to the sink. It waits for nobody.
pub fn still<S: Source, K: Sink>(
    alloc: Global,
    words: &[String],
    source: &mut S,
    sink: &mut K,
) -> Done
    requires { NeedsNoThreads (texts words.now) }
    ensures { IsDone (texts words.now) (reading S.left S.faults source.old source.new) (writing K.written K.handed K.faults sink.old sink.new) (source.new ≡ source.old) (sink.new ≡ sink.old) result }
{
    let Prepared { plan, program } = match prepare(alloc, words, source, sink) {
        Ok(prepared) => prepared,
        Err(done) => return done,
    };
    conclude(sink, answer_to(alloc, plan, &program))
}

/// The same for all words: a program that is to be run by threads has one for each processor of its cluster. It may wait.
pub fn top<R: Threads + Wait + Sync, S: Source, K: Sink, G: Gate + Sync>(
    rt: &R,
    alloc: Global,
    words: &[String],
    source: &mut S,
    sink: &mut K,
    gate: &G,
) -> Done
    ensures { IsDone (texts words.now) (reading S.left S.faults source.old source.new) (writing K.written K.handed K.faults sink.old sink.new) (source.new ≡ source.old) (sink.new ≡ sink.old) result }
{
    let Prepared { plan, program } = match prepare(alloc, words, source, sink) {
        Ok(prepared) => prepared,
        Err(done) => return done,
    };
    conclude(sink, answer_as_planned(rt, alloc, plan, &program, gate))
}

/// What the plan has to say of the program, by threads where it is one to run them.
fn answer_as_planned<R: Threads + Wait + Sync, G: Gate + Sync>(
    rt: &R,
    alloc: Global,
    plan: Plan,
    program: &Program,
    gate: &G,
) -> Result<Answer, NoMemory>
    requires runnable { IsRunnable plan program.now }
    ensures { IfOk result (λ a. Answers plan program.now a.ran a.text.items) }
{
    if plan.runs_by_threads() {
        return answer_by_threads(rt, alloc, plan, program, gate);
    }
    answer_to(alloc, plan, program)
}
// The plan that the words ask for, and its program, which was read or generated.
struct Prepared {
    plan: Plan,
    program: Program,
}

/// The plan and its program; or how the call ends where the words ask for none, or the program can't be had.
fn prepare<S: Source, K: Sink>(
    alloc: Global,
    words: &[String],
    source: &mut S,
    sink: &mut K,
) -> Result<Prepared, Done>
    ensures done { IfErr result (IsDone (texts words.now) (reading S.left S.faults source.old source.new) (writing K.written K.handed K.faults sink.old sink.new) (source.new ≡ source.old) (sink.new ≡ sink.old)) }
    ensures plan { IfOk result (λ x. PlanOf (texts words.now) x.plan) }
    ensures taken { IfOk result (λ x. Takes x.plan (reading S.left S.faults source.old source.new) x.program) }
    ensures read { IfOk result (λ x. S.faults source.new ≡ S.faults source.old) }
    ensures unread { IfOk result (λ x. IsToGenerate x.plan → source.new ≡ source.old) }
    ensures sink { IsOk result → sink.new ≡ sink.old }
{
    let plan = match plan(words) {
        Ok(plan) => plan,
        Err(k) => return Err(refuse(sink, &refuse_word(k), 2)),
    };
    match take_program(alloc, plan, source) {
        Ok(program) => Ok(Prepared { plan, program }),
        Err(Unread::Fault) => Err(without_run(4)),
        Err(Unread::TooLong) => Err(refuse(sink, &refuse_line(0, "TooLong"), 3)),
        Err(Unread::Refused(fault)) => Err(refuse_fault(sink, fault)),
        Err(Unread::NoMemory) => Err(without_run(6)),
    }
}

/// Writes the answer, where there was memory for it.
fn conclude<K: Sink>(sink: &mut K, answer: Result<Answer, NoMemory>) -> Done
    ensures answered { IfOk answer (Concludes (writing K.written K.handed K.faults sink.old sink.new) result) }
    ensures none { IsErr answer → (result.status ≡ 6) × (result.ran ≡ None) × (sink.new ≡ sink.old) }
{
    match answer {
        Ok(answer) => finish(sink, answer),
        Err(_) => without_run(6),
    }
}

/// Writes the answer.
fn finish<K: Sink>(sink: &mut K, answer: Answer) -> Done
    ensures { Concludes (writing K.written K.handed K.faults sink.old sink.new) result answer }
{
    let status = match write_all(sink, answer.text.as_slice()) {
        Err(_) => 5,
        Ok(()) => ending(&answer),
    };
    Done {
        status,
        ran: answer.ran,
    }
}

/// The status where all was written: 7 where a processor wanted memory, else 1 where one has not halted, and 0
/// elsewhere.
fn ending(answer: &Answer) -> u8
    ensures status { (result ≡ 0) ⊎ (result ≡ 1) ⊎ (result ≡ 7) }
    ensures halted { result ≡ 0 → IfSome answer.now.ran (λ a. AllHalted a.ends) }
    ensures wanted { result ≡ 7 → IsSomeAnd answer.now.ran (λ a. SomeWants a.ends) }
    ensures stopped { result ≡ 1 → IsSomeAnd answer.now.ran (λ a. (AllHalted a.ends → ⊥) × (SomeWants a.ends → ⊥)) }
{
    match &answer.ran {
        Some(ran) if ran.wants_memory() => 7,
        Some(ran) if !ran.is_halted() => 1,
        _ => 0,
    }
}

/// Writes the line of an answer that refuses.
fn refuse<K: Sink>(sink: &mut K, line: &Line, status: u8) -> Done
    ensures status { result.status ≡ status }
    ensures ran { result.ran ≡ None }
    ensures line { WritesLine (writing K.written K.handed K.faults sink.old sink.new) line.now.bytes }
{
    let _ = write_all(sink, line.as_str().as_bytes());
    without_run(status)
}

/// Writes the line that names the fault of a text.
fn refuse_fault<K: Sink>(sink: &mut K, fault: AsmFault) -> Done
    ensures status { result.status ≡ 3 }
    ensures ran { result.ran ≡ None }
    ensures line { WritesLine (writing K.written K.handed K.faults sink.old sink.new) (refused_line fault.line (name_of_kind fault.kind)) }
{
    refuse(
        sink,
        &refuse_line(u64::from(fault.line), kind_name(fault.kind)),
        3,
    )
}

fn without_run(status: u8) -> Done
    ensures status { result.status ≡ status }
    ensures ran { result.ran ≡ None }
{
    Done { status, ran: None }
}
