ghost use Rattle.std.specs.Prelude.{◌≡◌};
ghost use Rattle.std.specs.List.{slice_range};
ghost use Rattle.dsm_gen.specs.Generated.{program_with};

use crate::instructions::{
    add, addi, bge, bne, ld, li, me, mov, mul, out, procs, rem, st, subi, xor,
};
use crate::numbers::Numbers;
use dsm_isa::instr::Instr;

// The parts of the code, which stand one behind the other. Each place that is jumped to is one of the whole code.

/// Each processor fills its share of the words.
pub(crate) fn filling(n: Numbers) -> [Instr; 14]
    ensures { result ≡ slice_range (program_with n).code 0 14 }
{
    [
        me(1),
        procs(2),
        li(3, 1150),
        li(14, 0),
        li(15, 3),
        li(11, n.first),
        mov(4, 1),
        bge(4, 3, 13),
        addi(5, 4, 1),
        mul(5, 5, 11),
        st(5, 4, 0),
        add(4, 4, 2),
        Instr::Jmp { to: 7 },
        Instr::Bar { b: 0 },
    ]
}

/// The words are mixed into the second half of the memory.
pub(crate) fn going_up(n: Numbers) -> [Instr; 13]
    ensures { result ≡ slice_range (program_with n).code 14 27 }
{
    [
        li(11, n.up),
        mov(4, 1),
        bge(4, 3, 26),
        ld(5, 4, 0),
        mul(5, 5, 11),
        addi(6, 4, n.up_by),
        rem(6, 6, 3),
        ld(7, 6, 0),
        add(5, 5, 7),
        st(5, 4, 1152),
        add(4, 4, 2),
        Instr::Jmp { to: 16 },
        Instr::Bar { b: 0 },
    ]
}

/// They are mixed back into the first half, and all is done three times.
pub(crate) fn going_down(n: Numbers) -> [Instr; 15]
    ensures { result ≡ slice_range (program_with n).code 27 42 }
{
    [
        li(11, n.down),
        mov(4, 1),
        bge(4, 3, 39),
        ld(5, 4, 1152),
        mul(5, 5, 11),
        addi(6, 4, n.down_by),
        rem(6, 6, 3),
        ld(7, 6, 1152),
        xor(5, 5, 7),
        st(5, 4, 0),
        add(4, 4, 2),
        Instr::Jmp { to: 29 },
        Instr::Bar { b: 0 },
        subi(15, 15, 1),
        bne(15, 14, 14),
    ]
}

/// Each processor adds up its share, and all add their sums to the last word, which processor 0 prints.
pub(crate) fn adding_up(n: Numbers) -> [Instr; 17]
    ensures { result ≡ slice_range (program_with n).code 42 59 }
{
    [
        li(8, 0),
        mov(4, 1),
        bge(4, 3, 49),
        ld(5, 4, 0),
        add(8, 8, 5),
        add(4, 4, 2),
        Instr::Jmp { to: 44 },
        Instr::Lock { l: 0 },
        ld(5, 14, 2303),
        add(5, 5, 8),
        st(5, 14, 2303),
        Instr::Unlock { l: 0 },
        Instr::Bar { b: 0 },
        bne(1, 14, 58),
        ld(5, 14, 2303),
        out(5),
        Instr::Halt,
    ]
}
