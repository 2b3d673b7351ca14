ghost use Rattle.std.specs.Prelude.{◌≡◌, ◌%◌, ◌^◌, ◌++◌, [], ◌∷◌, map, slice_index_or, codes, decimal, sum, IfOk, OnOk};
ghost use Rattle.std.specs.List.{count_by};
ghost use Rattle.std.specs.Option.{option_or};
ghost use Rattle.dsm_list.specs.Lines.{line};
ghost use Rattle.dsm_report.specs.Report.{topology_word};
ghost use Rattle.dsm_report.specs.Summary.{has_halted, printed_in, last_printed as last_of, number_word, summary};

use dsm_core::ran::Ran;
use dsm_entry::entry::{Entry, NoMemory};
use dsm_entry::trace::Trace;
use dsm_isa::program::Program;
use dsm_list::lines::Lines;
use dsm_local::end::End;
use dsm_words::topology::Topology;
use itoa::Buffer;
use std::alloc::Global;

/// The summary of a run, on this cluster, of the program that was generated from this seed.
#[tactic(auto, unfolding(crate::specs::Summary::summary))]
pub fn summary(
    alloc: Global,
    seed: u64,
    t: Topology,
    program: &Program,
    ran: &Ran,
) -> Result<Vec<u8>, NoMemory>
    ensures { IfOk result (λ text. text.items ≡ summary seed t program.now ran.now) }
{
    let mut lines = Lines::new(alloc);
    write_seed(&mut lines, seed, t)?;
    write_number(&mut lines, "code", u64::from(program.code().len()))?;
    write_number(&mut lines, "halted", halted(&ran.ends))?;
    write_total(&mut lines, total(&ran.traces))?;
    write_number(&mut lines, "sum", sum_of(&ran.pages))?;
    Ok(lines.into_bytes())
}

/// Names the seed and the cluster.
fn write_seed(lines: &mut Lines, seed: u64, t: Topology) -> Result<(), NoMemory>
    ensures { OnOk result (lines.new ≡ lines.old ++ line (codes "gen" ∷ codes "seed" ∷ decimal seed ∷ topology_word t ∷ [])) }
{
    lines.first("gen")?;
    lines.word("seed")?;
    lines.number(seed)?;
    lines.number(u64::from(t.nodes))?;
    lines.first("x")?;
    lines.first(Buffer::new().format(t.procs))?;
    lines.end()
}

/// A line with a name and a number.
fn write_number(lines: &mut Lines, name: &str, n: u64) -> Result<(), NoMemory>
    ensures { OnOk result (lines.new ≡ lines.old ++ line (name.now ∷ decimal n ∷ [])) }
{
    lines.first(name)?;
    lines.number(n)?;
    lines.end()
}

/// The line of the last number that was printed, where there is one.
fn write_total(lines: &mut Lines, total: Option<u64>) -> Result<(), NoMemory>
    ensures { OnOk result (lines.new ≡ lines.old ++ line (codes "total" ∷ number_word total ∷ [])) }
{
    lines.first("total")?;
    match total {
        Some(n) => lines.number(n)?,
        None => lines.word("none")?,
    }
    lines.end()
}

/// How many processors halted.
fn halted(ends: &[Option<End>]) -> u64
    ensures { result ≡ count_by has_halted ends.now }
{
    let mut count = 0;
    for end in ends {
        if is_halted(*end) {
            count += 1;
        }
    }
    count
}

/// Whether a processor halted.
fn is_halted(end: Option<End>) -> bool
    ensures { result ≡ has_halted end }
{
    match end {
        Some(End::Halted) => true,
        _ => false,
    }
}

/// The last number that processor 0 printed.
fn total(traces: &[Trace]) -> Option<u64>
    ensures { result ≡ last_of (slice_index_or (map (λ t. t.list) traces.now) 0 []) }
{
    match traces.first() {
        Some(trace) => last_printed(trace),
        None => None,
    }
}

/// The last number that a processor printed.
fn last_printed(trace: &Trace) -> Option<u64>
    ensures { result ≡ last_of trace.now.list }
{
    let mut last = None;
    for i in 0..trace.len() {
        if let Some(entry) = trace.get(i) {
            last = printed(entry, last);
        }
    }
    last
}

/// The number that an entry prints, or else the last before it.
fn printed(entry: Entry, last: Option<u64>) -> Option<u64>
    ensures { result ≡ option_or (printed_in entry) last }
{
    match entry {
        Entry::Out { v } => Some(v),
        _ => last,
    }
}

/// The sum of the words, modulo 2^64.
fn sum_of(words: &[u64]) -> u64
    ensures { result ≡ sum words.now % 2 ^ 64 }
{
    let mut sum: u64 = 0;
    for word in words {
        sum = sum.wrapping_add(*word);
    }
    sum
}
