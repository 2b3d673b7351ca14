ghost use Rattle.std.specs.Prelude.{◌≡◌, true, false, List, Some, None, IfOk};
ghost use Rattle.dsm_report.specs.Report.{IsReport};
ghost use Rattle.dsm_runs.specs.Clusters.{Event};
ghost use Rattle.dsm_runs.specs.Outcomes.{Outcome};
ghost use Rattle.dsm_runs.specs.Setups.{IsSetup};
ghost use Rattle.dsm_core.specs.States.{setup_of};
ghost use Rattle.dsm_top.specs.Plans.{runs_by_threads};
ghost use Rattle.dsm_top.specs.Run.{IsRunnable};
ghost use Rattle.dsm_top.specs.Answer.{Answers};

use crate::plans::Plan;
use dsm_core::ran::Ran;
use dsm_entry::entry::NoMemory;
use dsm_isa::program::Program;
use dsm_list::listing::list;
use dsm_protocol::limits::Limits;
use dsm_report::reporting::text;
use dsm_report::shape_text;
use dsm_report::summing::summary;
use dsm_runner::gate::Gate;
use dsm_runner::run::run;
use dsm_sched::kind::Kind;
use dsm_sched::simulation::sim;
use dsm_twoway::laws::every_list;
use dsm_words::topology::Topology;
use std::alloc::Global;
use std::sync::Wait;
use std::thread::Threads;

/// The whole answer of a plan.
#[derive(Drop)]
pub struct Answer {
    pub text: Vec<u8>,
    /// What the run left, where the plan is one to run the program.
    pub ran: Option<Ran>,
}

/// What the plan, which is none to run threads, has to say of the program.
pub fn answer_to(alloc: Global, plan: Plan, program: &Program) -> Result<Answer, NoMemory>
    requires runnable { IsRunnable plan program.now }
    requires still { runs_by_threads plan ≡ false }
    ensures { IfOk result (λ a. Answers plan program.now a.ran a.text.items) }
{
    match plan {
        Plan::Check => Ok(Answer {
            text: shape_text(alloc, program)?,
            ran: None,
        }),
        Plan::List => Ok(Answer {
            text: list(alloc, program)?,
            ran: None,
        }),
        Plan::Sim {
            t,
            limits,
            kind,
            steps,
            trace,
        } => run_and_report(alloc, program, t, limits, kind, steps, trace),
        Plan::Run { .. } => unreachable!(),
        Plan::Gen {
            seed,
            t,
            limits,
            steps,
            ..
        } => run_and_sum_up(alloc, program, seed, t, limits, steps),
    }
}

/// What the plan, which is one to run threads, has to say of the program.
pub fn answer_by_threads<R: Threads + Wait + Sync, G: Gate + Sync>(
    rt: &R,
    alloc: Global,
    plan: Plan,
    program: &Program,
    gate: &G,
) -> Result<Answer, NoMemory>
    requires runnable { IsRunnable plan program.now }
    requires threads { runs_by_threads plan ≡ true }
    ensures { IfOk result (λ a. Answers plan program.now a.ran a.text.items) }
{
    match plan {
        Plan::Check => unreachable!(),
        Plan::List => unreachable!(),
        Plan::Sim { .. } => unreachable!(),
        Plan::Run { t, limits, trace } => {
            run_threads_and_report(rt, alloc, program, t, limits, trace, gate)
        }
        Plan::Gen {
            seed,
            t,
            limits,
            steps,
            ..
        } => run_threads_and_sum_up(rt, alloc, program, seed, t, limits, steps, gate),
    }
}

/// The report of what a run of the program with these limits left.
fn report(
    alloc: Global,
    t: Topology,
    limits: Limits,
    program: &Program,
    ran: Ran,
    trace: bool,
) -> Result<Answer, NoMemory>
    requires setup { IsSetup (setup_of program.now t limits) }
    requires outcome { (events : List Event) × Outcome (setup_of program.now t limits) events ran }
    ensures ran { IfOk result (λ a. a.ran ≡ Some ran) }
    ensures text { IfOk result (λ a. IsReport t program.now.shape ran trace a.text.items) }
{
    let _ = limits;
    every_list();
    let text = text(alloc, t, program, &ran, trace)?;
    Ok(Answer {
        text,
        ran: Some(ran),
    })
}

/// Runs the program, and reports it.
fn run_and_report(
    alloc: Global,
    program: &Program,
    t: Topology,
    limits: Limits,
    kind: Kind,
    steps: u64,
    trace: bool,
) -> Result<Answer, NoMemory>
    requires { IsSetup (setup_of program.now t limits) }
    ensures { IfOk result (λ a. Answers (Plan.Sim t limits kind steps trace) program.now a.ran a.text.items) }
{
    every_list();
    let ran = sim(alloc, program, t, limits, kind, steps)?.ran;
    report(alloc, t, limits, program, ran, trace)
}

/// Runs the program, which is that of the seed, in cyclic order, and sums it up.
fn run_and_sum_up(
    alloc: Global,
    program: &Program,
    seed: u64,
    t: Topology,
    limits: Limits,
    steps: u64,
) -> Result<Answer, NoMemory>
    requires { IsSetup (setup_of program.now t limits) }
    ensures { IfOk result (λ a. Answers (Plan.Gen seed t limits steps false) program.now a.ran a.text.items) }
{
    every_list();
    let ran = sim(alloc, program, t, limits, Kind::Round, steps)?.ran;
    let text = summary(alloc, seed, t, program, &ran)?;
    Ok(Answer {
        text,
        ran: Some(ran),
    })
}

/// Runs the program by threads, and reports it.
fn run_threads_and_report<R: Threads + Wait + Sync, G: Gate + Sync>(
    rt: &R,
    alloc: Global,
    program: &Program,
    t: Topology,
    limits: Limits,
    trace: bool,
    gate: &G,
) -> Result<Answer, NoMemory>
    requires setup { IsSetup (setup_of program.now t limits) }
    requires looks { limits.looks ≡ None }
    ensures { IfOk result (λ a. Answers (Plan.Run t limits trace) program.now a.ran a.text.items) }
{
    every_list();
    let ran = run(rt, alloc, program, t, limits, gate)?;
    report(alloc, t, limits, program, ran, trace)
}

/// Runs the program, which is that of the seed, by threads, and sums it up.
fn run_threads_and_sum_up<R: Threads + Wait + Sync, G: Gate + Sync>(
    rt: &R,
    alloc: Global,
    program: &Program,
    seed: u64,
    t: Topology,
    limits: Limits,
    steps: u64,
    gate: &G,
) -> Result<Answer, NoMemory>
    requires setup { IsSetup (setup_of program.now t limits) }
    requires looks { limits.looks ≡ None }
    ensures { IfOk result (λ a. Answers (Plan.Gen seed t limits steps true) program.now a.ran a.text.items) }
{
    let _ = steps;
    every_list();
    let ran = run(rt, alloc, program, t, limits, gate)?;
    let text = summary(alloc, seed, t, program, &ran)?;
    Ok(Answer {
        text,
        ran: Some(ran),
    })
}
