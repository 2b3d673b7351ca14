// Asks the judge about the word of a lock counter, in traces of a wanted size, so that bench/judged can time it:
//     judging clocks|chains ENTRIES PROCESSORS
// With `chains` two processors more wait for each other. They access no word, but with their circle the judge follows
// chains of edges, as it did before it had clocks.
#![tactic(auto)]

ghost use Rattle.std.specs.Prelude.{◌≡◌, ◌≤◌, ℕ, IfSome};

mod counter;

use crate::counter::{add_circle, counter};
use dsm_entry::entry::NoMemory;
use dsm_flat::judge::judge;
use dsm_flat::verdict::Verdict;
use dsm_lex::spelling::number;
use std::alloc::Global;
use std::env::Env;
use std::process::ExitCode;

/// The most entries.
const ENTRIES: u64 = 10_000_000;

/// The most processors that count.
const PROCESSORS: u64 = 32;

/// What is asked for.
#[derive(Drop)]
struct Asked {
    /// How many turns of four entries the processors have together.
    turns: u64,
    /// How many processors count.
    processors: u64,
    /// Whether two more wait for each other.
    circle: bool,
}

/// Whether word `i` of the command line is this one.
fn is_word(rt: &impl Env, i: usize, wanted: &[u8]) -> bool {
    let mut buffer = [0u8; 16];
    match rt.arg(i, &mut buffer) {
        Ok(count) => buffer.get(..count) == Some(wanted),
        Err(_) => false,
    }
}

/// Word `i` of the command line as a number from 1 to `most`.
fn number_at(rt: &impl Env, i: usize, most: u64) -> Option<u64>
    ensures { IfSome result (λ n. (1 ≤ n) × (n ≤ most)) }
{
    let mut buffer = [0u8; 16];
    let count = rt.arg(i, &mut buffer).ok()?;
    let n = number(buffer.get(..count)?)?;
    if n == 0 || n > most {
        return None;
    }
    Some(n)
}

fn read_asked(rt: &impl Env) -> Option<Asked>
    ensures { IfSome result (λ a. (1 ≤ a.processors) × (a.processors ≤ 32)) }
{
    let circle = is_word(rt, 1, b"chains");
    if !circle && !is_word(rt, 1, b"clocks") {
        return None;
    }
    Some(Asked {
        turns: number_at(rt, 2, ENTRIES)? / 4,
        processors: number_at(rt, 3, PROCESSORS)?,
        circle,
    })
}

/// What the judge says of word 0.
fn verdict(alloc: Global, asked: &Asked) -> Result<Verdict, NoMemory>
    requires some { 1 ≤ asked.now.processors }
    requires few { asked.now.processors ≤ 32 }
{
    let mut traces = counter(alloc, asked.turns, asked.processors)?;
    if asked.circle {
        add_circle(alloc, &mut traces)?;
    }
    judge(alloc, traces.as_slice(), 0)
}

fn main(rt: HostRuntime) -> ExitCode {
    let Some(asked) = read_asked(&rt) else {
        return ExitCode::from(2);
    };
    let said = match verdict(rt.alloc(), &asked) {
        Ok(Verdict::Ordered) => "ordered",
        Ok(Verdict::Raced { .. }) => "raced",
        Err(_) => return ExitCode::from(6),
    };
    match println!(rt; "{said}") {
        Ok(()) => ExitCode::from(0),
        Err(_) => ExitCode::from(5),
    }
}
