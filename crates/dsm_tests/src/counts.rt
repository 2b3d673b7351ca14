// What a report counts.
use crate::asking::{SIM, answer};
use crate::texts::{FIRST, FIRST_REPORT, NEVER, REMOTE};
use std::alloc::Global;
use std::test::Fail;

/// Words, text, status, the report before the counts, the counts that are not 0.
type Counted = (
    &'static [&'static str],
    &'static [u8],
    u8,
    &'static str,
    &'static [(&'static str, u64)],
);

/// Runs with all that they count.
const COUNTED: &[Counted] = &[
    (
        SIM,
        FIRST,
        0,
        FIRST_REPORT,
        &[("write_faults", 1), ("enters", 1), ("breaks", 1)],
    ),
    (
        &["sim", "1x2", "looks=5"],
        NEVER,
        1,
        "cashmere 1x2\nend 0 looked\nend 1 stopped by 0\npage 0 0 0\n",
        &[("unready", 9)],
    ),
    (
        &["sim", "2x1"],
        REMOTE,
        0,
        "cashmere 2x1\nend 0 halted\nend 1 halted\nout 1 5\npage 0 5 0\n",
        &[("read_faults", 1), ("unready", 6)],
    ),
];

/// The names of all counts, in the order of their lines.
const COUNTS: [&str; 12] = [
    "read_faults",
    "write_faults",
    "overwrites",
    "merges",
    "twins",
    "flushes",
    "early",
    "notices",
    "unmaps",
    "enters",
    "breaks",
    "unready",
];

/// The lines of all counts, each 0 that is not among these.
fn count_lines(alloc: Global, counts: &[(&str, u64)]) -> Result<Vec<u8>, Fail> {
    let mut text = Vec::new(alloc);
    for name in COUNTS {
        let n = counts
            .iter()
            .find(|count| count.0 == name)
            .map_or(0, |count| count.1);
        text.extend_from_slice(format!(in alloc; "count {name} {n}\n")?.as_bytes())?;
    }
    Ok(text)
}

// Each with its twelve counts: a run with a page alone, a wait that nobody serves, and a page of another node's.
#[test]
fn counts_what_happened(rt: HostRuntime) -> Result<(), Fail> {
    for (i, (words, text, status, report, counts)) in COUNTED.iter().enumerate() {
        let (got, written) = answer(rt.alloc(), words, text, (4096, &[]), (4096, &[]))?;
        assert_eq!(rt; got, *status, "row {i}");
        let wanted = count_lines(rt.alloc(), counts)?;
        assert!(rt;
            written.as_slice().strip_prefix(report.as_bytes()) == Some(wanted.as_slice()),
            "row {i}"
        );
    }
    Ok(())
}
