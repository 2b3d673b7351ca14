ghost use Rattle.std.specs.Prelude.{◌≡◌, ◌*◌, ◌<◌, ◌^◌, ◌++◌, [], ◌∷◌, length, codes, IfOk, OnOk};
ghost use Rattle.dsm_flat.specs.Order.{NoCircle};
ghost use Rattle.dsm_flat.specs.Following.{AreShort};
ghost use Rattle.dsm_list.specs.Lines.{line};
ghost use Rattle.dsm_report.specs.Report.{topology_word, report, IsReport};

use crate::counts::write_counts;
use crate::ends::write_ends;
use crate::outs::write_outs;
use crate::pages::write_pages;
use crate::races::write_races;
use crate::traces::write_traces;
use dsm_core::ran::Ran;
use dsm_entry::entry::NoMemory;
use dsm_flat::raced::raced;
use dsm_isa::program::Program;
use dsm_list::lines::Lines;
use dsm_words::topology::Topology;
use itoa::Buffer;
use std::alloc::Global;

/// The report of a run of the program on this cluster: how each processor ended, what each printed, the words of the
/// pages, which words are not ordered, and the counts; with `trace` also each entry of each processor.
pub fn text(
    alloc: Global,
    t: Topology,
    program: &Program,
    ran: &Ran,
    trace: bool,
) -> Result<Vec<u8>, NoMemory>
    requires pages { length ran.now.pages ≡ program.now.shape.pages * program.now.shape.words }
    requires few { length ran.now.traces < 2 ^ 32 }
    requires no_circle { NoCircle ran.now.traces }
    requires short { AreShort ran.now.traces }
    ensures { IfOk result (λ text. IsReport t program.now.shape ran.now trace text.items) }
{
    let shape = program.shape();
    let races = raced(alloc, &ran.traces, shape.pages * shape.words)?;
    report_with(alloc, t, program, ran, &races, trace)
}

/// The report, where it is told of each word whether it is not ordered.
#[tactic(auto, unfolding(crate::specs::Report::report))]
fn report_with(
    alloc: Global,
    t: Topology,
    program: &Program,
    ran: &Ran,
    races: &[bool],
    trace: bool,
) -> Result<Vec<u8>, NoMemory>
    requires { length ran.now.pages ≡ program.now.shape.pages * program.now.shape.words }
    ensures { IfOk result (λ text. text.items ≡ report t program.now.shape ran.now races.now trace) }
{
    let mut lines = Lines::new(alloc);
    write_title(&mut lines, t)?;
    write_ends(&mut lines, &ran.ends)?;
    write_outs(&mut lines, &ran.traces)?;
    write_pages(&mut lines, program.shape(), &ran.pages)?;
    write_races(&mut lines, races)?;
    write_counts(&mut lines, ran.counts)?;
    if trace {
        write_traces(&mut lines, &ran.traces)?;
    }
    Ok(lines.into_bytes())
}

/// Names the cluster.
fn write_title(lines: &mut Lines, t: Topology) -> Result<(), NoMemory>
    ensures { OnOk result (lines.new ≡ lines.old ++ line (codes "cashmere" ∷ topology_word t ∷ [])) }
{
    lines.first("cashmere")?;
    lines.number(u64::from(t.nodes))?;
    lines.first("x")?;
    lines.first(Buffer::new().format(t.procs))?;
    lines.end()
}
