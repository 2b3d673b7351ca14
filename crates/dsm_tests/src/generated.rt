// Generated programs: their summaries are equal on every cluster, since all that they load is ordered.
use crate::asking::answer;
use std::alloc::Global;
use std::test::Fail;

/// A seed, its total and its sum, worked out from the program's text as one processor would run it.
type Seed = (&'static str, &'static str, &'static str);

const ONE: Seed = ("1", "14842789552643550044", "15886666729926948536");

const ZERO: Seed = ("0", "7280996001793369856", "12980354879126608912");

const LARGEST: Seed = (
    "18446744073709551615",
    "708437528545794136",
    "8269701439125473552",
);

// Whether the program of the seed has this summary on a cluster of so many processors.
fn sums_up(alloc: Global, seed: Seed, cluster: &str, processors: u32) -> Result<bool, Fail> {
    let (seed, total, sum) = seed;
    let word = format!(in alloc; "seed={seed}")?;
    let words = ["gen", word.as_str(), cluster];
    let (status, written) = answer(alloc, &words, b"", (4096, &[]), (4096, &[]))?;
    let wanted = format!(in alloc;
        "gen seed {seed} {cluster}\ncode 59\nhalted {processors}\ntotal {total}\nsum {sum}\n"
    )?;
    Ok(status == 0 && written.as_slice() == wanted.as_bytes())
}

#[test]
fn eight_on_each_of_four_nodes(rt: HostRuntime) -> Result<(), Fail> {
    assert!(rt; sums_up(rt.alloc(), ONE, "4x8", 32)?);
    Ok(())
}

#[test]
fn four_on_each_of_eight_nodes(rt: HostRuntime) -> Result<(), Fail> {
    assert!(rt; sums_up(rt.alloc(), ONE, "8x4", 32)?);
    Ok(())
}

#[test]
fn small_clusters(rt: HostRuntime) -> Result<(), Fail> {
    assert!(rt; sums_up(rt.alloc(), ONE, "1x1", 1)?);
    assert!(rt; sums_up(rt.alloc(), ONE, "2x2", 4)?);
    Ok(())
}

#[test]
fn other_seeds(rt: HostRuntime) -> Result<(), Fail> {
    for seed in [ZERO, LARGEST] {
        assert!(rt; sums_up(rt.alloc(), seed, "1x1", 1)?);
        assert!(rt; sums_up(rt.alloc(), seed, "2x2", 4)?);
    }
    Ok(())
}

#[test]
fn the_largest_seed_on_32_processors(rt: HostRuntime) -> Result<(), Fail> {
    assert!(rt; sums_up(rt.alloc(), LARGEST, "4x8", 32)?);
    Ok(())
}

#[test]
fn a_seed_of_zero_on_32_processors(rt: HostRuntime) -> Result<(), Fail> {
    assert!(rt; sums_up(rt.alloc(), ZERO, "8x4", 32)?);
    Ok(())
}

// A run that is cut, and one whose processors may do no more than five instructions.
#[test]
fn limits_end_a_generated_program(rt: HostRuntime) -> Result<(), Fail> {
    let cut = answer(
        rt.alloc(),
        &["gen", "seed=1", "2x2", "steps=9"],
        b"",
        (4096, &[]),
        (4096, &[]),
    )?;
    assert_eq!(rt; cut.0, 1);
    assert_eq!(rt;
        cut.1.as_slice(),
        b"gen seed 1 2x2\ncode 59\nhalted 0\ntotal none\nsum 0\n".as_slice()
    );
    let spent = answer(
        rt.alloc(),
        &["gen", "seed=1", "2x2", "looks=7", "turns=5", "steps=1000"],
        b"",
        (4096, &[]),
        (4096, &[]),
    )?;
    assert_eq!(rt; spent.0, 1);
    assert_eq!(rt;
        spent.1.as_slice(),
        b"gen seed 1 2x2\ncode 59\nhalted 0\ntotal none\nsum 0\n".as_slice()
    );
    Ok(())
}
