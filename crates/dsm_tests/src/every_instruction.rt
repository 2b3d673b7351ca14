// Each instruction of the language, by thirty-two threads. What is printed and left follows from the program alone: all words are ordered.
use crate::asking::{halted, uncounted};
use crate::threads::run_with;
use dsm_runner::gate::OpenGate;
use std::alloc::Global;
use std::test::Fail;

/// All 34 instructions. Numbers of processors are mixed with 7 and with 32; then a lock, a barrier and two flags each stand between a
/// store and the loads of it.
const EACH: &[u8] =
    b".pages 2\n.words 64\n.locks 1\n.barriers 1\n.flags 2\n.init 64 1000\nme r1\nprocs r2\nli r3 7\nadd r4 r1 r3\nout r4\nsub r4 r1 r2\nout r4\nmul r5 r4 r3\nout r5\ndiv r6 r5 r2\nout r6\nrem r6 r5 r2\nout r6\nand r6 r1 r3\nout r6\nor r6 r1 r3\nout r6\nxor r6 r1 r3\nout r6\naddi r6 r1 64\nshl r7 r4 r6\nout r7\nshr r7 r4 r6\nout r7\nslt r7 r1 r3\nout r7\nseq r7 r1 r3\nout r7\nsubi r7 r1 5\nout r7\nmov r7 r2\nmuli r7 r7 3\nout r7\nli r8 0\nbeq r1 r3 a\naddi r8 r8 1\na: bne r1 r3 b\naddi r8 r8 2\nb: blt r1 r3 c\naddi r8 r8 4\nc: bge r1 r3 d\naddi r8 r8 8\nd: jmp e\naddi r8 r8 16\ne: out r8\naddi r4 r1 1\nrem r4 r4 r2\naddi r5 r1 100\nst r5 r1 0\nlock 0\nld r6 r0 64\nadd r6 r6 r5\nst r6 r0 64\nunlock 0\nbar 0\nld r6 r4 0\nout r6\nld r6 r0 64\nout r6\naddi r5 r1 200\nst r5 r1 32\nset 0\nwait 0 32\nld r6 r4 32\nout r6\naddi r5 r1 300\nst r5 r1 96\nset 1\nwaitr 1 r2\nld r6 r4 96\nout r6\nhalt\n";

/// What a processor of 32 prints. Numbers are modulo 2^64, and shifts modulo 64.
fn printed_by(p: u64) -> [u64; 19] {
    let below = p.wrapping_sub(32);
    let product = below.wrapping_mul(7);
    let shift = (p % 64) as u32;
    let next = p.wrapping_add(1) % 32;
    let way = if p < 7 {
        1 + 8
    } else if p == 7 {
        2 + 4
    } else {
        1 + 4
    };
    [
        p.wrapping_add(7),
        below,
        product,
        product / 32,
        product % 32,
        p & 7,
        p | 7,
        p ^ 7,
        below << shift,
        below >> shift,
        u64::from(p < 7),
        u64::from(p == 7),
        p.wrapping_sub(5),
        96,
        way,
        next + 100,
        4696,
        next + 200,
        next + 300,
    ]
}

/// The lines of what all print.
fn outs(alloc: Global, text: &mut Vec<u8>) -> Result<(), Fail> {
    for p in 0..32 {
        for v in printed_by(p) {
            text.extend_from_slice(format!(in alloc; "out {p} {v}\n")?.as_bytes())?;
        }
    }
    Ok(())
}

/// Behind the words that a line begins with, the numbers of the processors, each with the same number added.
fn numbers(alloc: Global, text: &mut Vec<u8>, first: u64) -> Result<(), Fail> {
    for p in 0..32 {
        let v = first.wrapping_add(p);
        text.extend_from_slice(format!(in alloc; " {v}")?.as_bytes())?;
    }
    Ok(())
}

// Word 64 starts with 1000, and each processor adds 100 and its number.
#[test]
fn runs_each_instruction(rt: HostRuntime) -> Result<(), Fail> {
    let mut wanted = halted(rt.alloc(), "cashmere 8x4\n", 32)?;
    outs(rt.alloc(), &mut wanted)?;
    wanted.extend_from_slice(b"page 0")?;
    numbers(rt.alloc(), &mut wanted, 100)?;
    numbers(rt.alloc(), &mut wanted, 200)?;
    wanted.extend_from_slice(b"\npage 1 4696")?;
    wanted.extend_from_slice(&b" 0".repeat(rt.alloc(), 31)?)?;
    numbers(rt.alloc(), &mut wanted, 300)?;
    wanted.extend_from_slice(b"\n")?;
    let (done, written) = run_with(&rt, &["run", "8x4"], EACH, &OpenGate)?;
    assert_eq!(rt; done.status, 0);
    assert!(rt; uncounted(&written) == wanted.as_slice());
    Ok(())
}
