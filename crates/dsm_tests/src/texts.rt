// Programs of which several tests speak.

/// A program that stores 7 to word 2, loads it again and prints it.
pub(crate) const FIRST: &[u8] =
    b".words 4\nli r1 7\nli r2 2\nst r1 r2 0\nld r3 r2 0\nout r3\nhalt\n";

/// Its report before the counts.
pub(crate) const FIRST_REPORT: &str = "cashmere 1x1\nend 0 halted\nout 0 7\npage 0 0 0 7 0\n";

/// The counts.
pub(crate) const FIRST_COUNTS: &str =
    "count read_faults 0\ncount write_faults 1\ncount overwrites 0\ncount merges 0\ncount twins 0\ncount flushes 0\ncount early 0\ncount notices 0\ncount unmaps 0\ncount enters 1\ncount breaks 1\ncount unready 0\n";

/// Each processor adds 1 to word 0 a hundred times, under a lock; processor 0 prints the sum.
pub(crate) const COUNTER: &[u8] =
    b".words 4\n.locks 1\n.barriers 1\nli r1 100\nli r2 0\nloop: lock 0\nld r3 r2 0\naddi r3 r3 1\nst r3 r2 0\nunlock 0\nsubi r1 r1 1\nbne r1 r2 loop\nbar 0\nme r4\nbne r4 r2 end\nld r3 r2 0\nout r3\nend: halt\n";

/// Processor 0 waits for a flag that nobody sets, and processor 1 for processor 0.
pub(crate) const NEVER: &[u8] =
    b".words 2\n.barriers 1\n.flags 1\nme r1\nli r2 0\nbne r1 r2 b\nwait 0 1\nb: bar 0\nhalt\n";

/// Processor 1 stores 5 and sets the flag that processor 0 waits for, as often as its register says.
pub(crate) const PRODUCER: &[u8] =
    b".words 2\n.flags 1\nme r1\nli r2 0\nli r3 1\nbne r1 r2 one\nwaitr 0 r3\nld r4 r2 1\nout r4\nhalt\none: li r4 5\nst r4 r2 1\nset 0\n";

/// Each processor stores a number to a word of its own, and behind a barrier prints its right neighbour's.
pub(crate) const NEIGHBOURS: &[u8] =
    b".words 8\n.barriers 1\nme r1\naddi r2 r1 100\nst r2 r1 0\nbar 0\nprocs r3\naddi r4 r1 1\nrem r4 r4 r3\nld r5 r4 0\nout r5\nhalt\n";

/// The same for processors 0 to 3; all others store to word 4, and print what they then find there.
pub(crate) const RACERS: &[u8] =
    b".words 8\n.barriers 1\nme r1\nli r6 4\naddi r2 r1 100\nblt r1 r6 own\nst r2 r6 0\njmp meet\nown: st r2 r1 0\nmeet: bar 0\nbge r1 r6 race\naddi r4 r1 1\nrem r4 r4 r6\nld r5 r4 0\nout r5\nhalt\nrace: ld r5 r6 0\nout r5\nhalt\n";

/// Processor 1 prints word 0, which starts with 5.
pub(crate) const REMOTE: &[u8] =
    b".words 2\n.init 0 5\nme r1\nli r2 0\nbeq r1 r2 end\nld r3 r2 0\nout r3\nend: halt\n";

/// Processor 0 stores 5 to word 0, and behind that processor 1 stores 0 to it, with which it started; processor 0 prints 0, the last.
pub(crate) const AGAIN: &[u8] =
    b".words 4\n.flags 3\nme r1\nli r2 0\nbne r1 r2 one\nwait 0 1\nli r3 5\nst r3 r2 0\nset 1\nwait 2 1\nld r4 r2 0\nout r4\nhalt\none: li r3 9\nst r3 r2 1\nset 0\nwait 1 1\nst r2 r2 0\nset 2\nhalt\n";

/// Word 0 has 3. Processor 2 stores 7 to it and then 3 again; between these processor 3, of the same node, releases.
pub(crate) const BACK: &[u8] =
    b".words 4\n.flags 3\n.init 0 3\nme r1\nli r2 0\nli r3 2\nli r4 3\nbeq r1 r2 p0\nbeq r1 r3 p2\nbeq r1 r4 p3\nhalt\np0: li r5 1\nst r5 r2 2\nset 0\nwait 1 1\nld r6 r2 0\nout r6\nhalt\np2: wait 0 1\nli r5 7\nst r5 r2 0\nli r7 400\nspin: subi r7 r7 1\nbne r7 r2 spin\nst r4 r2 0\nset 1\nhalt\np3: wait 0 1\nli r5 9\nst r5 r2 1\nset 2\nhalt\n";

/// Processors 0 and 1 each store twice to a word of page 2, which one has for itself at first; processor 0 prints both words.
pub(crate) const ALONE: &[u8] =
    b".pages 3\n.words 4\n.flags 3\nme r1\nli r2 0\nli r3 1\nli r4 8\nbeq r1 r2 p0\nbeq r1 r3 p1\nhalt\np0: li r5 4\nst r5 r4 0\nli r7 100\ns0: subi r7 r7 1\nbne r7 r2 s0\nli r5 5\nst r5 r4 0\nset 0\nwait 1 1\nwait 2 1\nld r6 r4 0\nout r6\nld r6 r4 1\nout r6\nhalt\np1: li r5 8\nst r5 r4 1\nli r7 400\ns1: subi r7 r7 1\nbne r7 r2 s1\nset 1\nli r7 400\ns2: subi r7 r7 1\nbne r7 r2 s2\nli r5 9\nst r5 r4 1\nset 2\nhalt\n";

/// Processor 2 takes the page away from the node on which two processors still store to it.
pub(crate) const BESIDE: &[u8] =
    b".pages 2\n.words 4\n.flags 1\nme r1\nli r2 0\nli r3 2\nli r4 4\nli r8 300\nbeq r1 r3 p2\nbge r1 r3 done\nadd r4 r4 r1\nli r5 0\nmore: addi r5 r5 1\nst r5 r4 0\nbne r5 r8 more\nset 0\ndone: halt\np2: li r7 200\nspin: subi r7 r7 1\nbne r7 r2 spin\nld r6 r4 2\nwait 0 2\nld r6 r4 0\nout r6\nld r6 r4 1\nout r6\nhalt\n";

/// Each processor stores to a word of its own beside releases, and adds 1 to word 6 under a lock.
pub(crate) const COALESCED: &[u8] =
    b".words 8\n.locks 1\n.flags 1\nme r1\nli r2 0\nli r5 20\nli r4 0\nmore: st r5 r1 0\nset 0\naddi r4 r4 1\nst r4 r1 0\nlock 0\nld r6 r2 6\naddi r6 r6 1\nst r6 r2 6\nunlock 0\nbne r4 r5 more\nhalt\n";

/// Ten sweeps over a grid of 32 by 32, the rows in turn to each processor; processor 0 prints the sum.
pub(crate) const GRID: &[u8] =
    b".pages 16\n.words 128\n.barriers 1\n.init 528 1000000\nme r1\nprocs r2\nli r3 0\nli r4 1024\nli r5 10\nli r6 31\nli r14 0\nli r15 2\nsweep: addi r7 r1 1\nrow: bge r7 r6 next\nmuli r8 r7 32\naddi r8 r8 1\nadd r9 r8 r3\nsubi r9 r9 32\nadd r10 r8 r4\naddi r11 r10 30\ncol: ld r12 r9 0\nld r13 r9 31\nadd r12 r12 r13\nld r13 r9 33\nadd r12 r12 r13\nld r13 r9 64\nadd r12 r12 r13\nshr r12 r12 r15\nst r12 r10 0\naddi r9 r9 1\naddi r10 r10 1\nbne r10 r11 col\nadd r7 r7 r2\njmp row\nnext: bar 0\nmov r8 r3\nmov r3 r4\nmov r4 r8\nsubi r5 r5 1\nbne r5 r14 sweep\nbne r1 r14 end\nli r12 0\nmov r9 r3\naddi r11 r3 1024\nsum: ld r13 r9 0\nadd r12 r12 r13\naddi r9 r9 1\nbne r9 r11 sum\nout r12\nend: halt\n";
