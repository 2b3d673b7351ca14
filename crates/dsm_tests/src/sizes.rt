// The longest texts, and runs in the largest memory and on the most processors.
use crate::asking::{CHECK, answer, answers, halted, uncounted};
use dsm_top::reading::MOST_TEXT;
use std::alloc::Global;
use std::test::Fail;

/// A first line, so many times the same one, and a last one.
fn repeated(
    alloc: Global,
    first: &[u8],
    count: usize,
    line: &[u8],
    last: &[u8],
) -> Result<Vec<u8>, Fail> {
    let mut text = Vec::from_slice(alloc, first)?;
    for _ in 0..count {
        text.extend_from_slice(line)?;
    }
    text.extend_from_slice(last)?;
    Ok(text)
}

// 4,096 instructions are a program. That there is one more is named after all else that is wrong with its line.
#[test]
fn most_instructions(rt: HostRuntime) -> Result<(), Fail> {
    let rows: [(&[u8], u8, &str); 3] = [
        (
            b";halt\n",
            0,
            "program pages 1 words 64 locks 0 barriers 0 flags 0 code 4096\n",
        ),
        (b"halt\n", 3, "refused line 4097 Limit Code\n"),
        (b"jmp x\n", 3, "refused line 4097 NoLabel\n"),
    ];
    for (last, status, wanted) in rows {
        let text = repeated(rt.alloc(), b"halt\n", 4095, b"halt\n", last)?;
        assert!(rt;
            answers(rt.alloc(), CHECK, &text, status, wanted)?,
            "{wanted}"
        );
    }
    Ok(())
}

// A text of 65,536 bytes is read, and one of 65,537 is too long.
#[test]
fn longest_text(rt: HostRuntime) -> Result<(), Fail> {
    let rows: [(&[u8], usize, u8, &str); 2] = [
        (
            b";xxxxxxxxxxxxxxxxxxxxxxxxxxxxx\n",
            MOST_TEXT,
            0,
            "program pages 1 words 64 locks 0 barriers 0 flags 0 code 1\n",
        ),
        (
            b";xxxxxxxxxxxxxxxxxxxxxxxxxxxxxx\n",
            MOST_TEXT + 1,
            3,
            "refused line 0 TooLong\n",
        ),
    ];
    for (last, size, status, wanted) in rows {
        let text = repeated(rt.alloc(), b"halt\n", 655, COMMENT, last)?;
        assert_eq!(rt; text.len(), size);
        assert!(rt;
            answers(rt.alloc(), CHECK, &text, status, wanted)?,
            "{wanted}"
        );
    }
    Ok(())
}

/// A line of 100 bytes that is all comment.
const COMMENT: &[u8] =
    b";xxxxxxxxxxxxxxxxxxxxxxxxxxxxxxxxxxxxxxxxxxxxxxxxxxxxxxxxxxxxxxxxxxxxxxxxxxxxxxxxxxxxxxxxxxxxxxxxxx\n";

/// The report of a run of eight processors in the largest memory, in each of whose parts the last word has its
/// number, from 1.
fn largest_report(alloc: Global) -> Result<Vec<u8>, Fail> {
    let mut text =
        b"cashmere 1x8\nend 0 halted\nend 1 halted\nend 2 halted\nend 3 halted\nend 4 halted\nend 5 halted\nend 6 halted\nend 7 halted\n".to_vec(
            alloc,
        )?;
    for g in 0..256 {
        text.extend_from_slice(format!(in alloc; "page {g}")?.as_bytes())?;
        for _ in 0..255 {
            text.extend_from_slice(b" 0")?;
        }
        let last = if g % 32 == 31 { g / 32 + 1 } else { 0 };
        text.extend_from_slice(format!(in alloc; " {last}\n")?.as_bytes())?;
    }
    Ok(text)
}

// The largest memory, the most objects and the most processors of one node: each part of the memory is its
// processor's, who stores its number to the part's last word.
#[test]
fn largest_node(rt: HostRuntime) -> Result<(), Fail> {
    let text: &[u8] =
        b".pages 256\n.words 256\n.locks 64\n.barriers 16\n.flags 64\nme r1\nmuli r2 r1 8192\naddi r3 r1 1\nst r3 r2 8191\nbar 15\nlock 63\nunlock 63\nset 63\nwait 63 8\nhalt\n";
    let (status, written) = answer(rt.alloc(), &["sim", "1x8"], text, (4096, &[]), (4096, &[]))?;
    assert_eq!(rt; status, 0);
    assert!(rt; uncounted(&written) == largest_report(rt.alloc())?.as_slice());
    Ok(())
}

// The most processors that there may be.
#[test]
fn halts_on_the_largest_cluster(rt: HostRuntime) -> Result<(), Fail> {
    let mut wanted = halted(rt.alloc(), "cashmere 8x4\n", 32)?;
    wanted.extend_from_slice(b"page 0 0\n")?;
    let (status, written) = answer(
        rt.alloc(),
        &["sim", "8x4"],
        b".words 1\nhalt\n",
        (4096, &[]),
        (4096, &[]),
    )?;
    assert_eq!(rt; status, 0);
    assert!(rt; uncounted(&written) == wanted.as_slice());
    Ok(())
}

/// A line for the number of each processor's right neighbour, from 1.
fn neighbours(alloc: Global, text: &mut Vec<u8>) -> Result<(), Fail> {
    for p in 0..32 {
        let right = (p + 1) % 32 + 1;
        text.extend_from_slice(format!(in alloc; "out {p} {right}\n")?.as_bytes())?;
    }
    Ok(())
}

/// A page of 256 words, all 0 but the last.
fn page(alloc: Global, text: &mut Vec<u8>, g: u32, last: u32) -> Result<(), Fail> {
    text.extend_from_slice(format!(in alloc; "page {g}")?.as_bytes())?;
    for _ in 0..255 {
        text.extend_from_slice(b" 0")?;
    }
    text.extend_from_slice(format!(in alloc; " {last}\n")?.as_bytes())?;
    Ok(())
}

/// Each of 32 processors stores its number, from 1, to the last word of its part of the memory, and behind a barrier prints that of its
/// right neighbour.
const LARGEST: &[u8] =
    b".pages 256\n.words 256\n.locks 64\n.barriers 16\n.flags 64\nme r1\nprocs r2\nmuli r3 r1 2048\naddi r4 r1 1\nst r4 r3 2047\nbar 15\nrem r5 r4 r2\nmuli r5 r5 2048\nld r6 r5 2047\nout r6\nlock 63\nunlock 63\nset 63\nwait 63 32\nhalt\n";

// The largest memory, the most objects and the most processors.
#[test]
fn largest_cluster(rt: HostRuntime) -> Result<(), Fail> {
    let mut wanted = halted(rt.alloc(), "cashmere 8x4\n", 32)?;
    neighbours(rt.alloc(), &mut wanted)?;
    for g in 0..256 {
        page(
            rt.alloc(),
            &mut wanted,
            g,
            if g % 8 == 7 { g / 8 + 1 } else { 0 },
        )?;
    }
    let (status, written) = answer(
        rt.alloc(),
        &["sim", "8x4"],
        LARGEST,
        (4096, &[]),
        (4096, &[]),
    )?;
    assert_eq!(rt; status, 0);
    assert!(rt; uncounted(&written) == wanted.as_slice());
    Ok(())
}
