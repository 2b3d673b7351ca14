// What the top call refuses, and which fault it names.
use crate::asking::{CHECK, Row, all_answer};
use crate::texts::FIRST;
use dsm_top::refusal::{refuse_line, refuse_word};
use std::test::Fail;

/// Words that ask for no plan, each with the number of the first faulty one.
const WORDS: &[Row] = &[
    (&["sim", "9x1"], FIRST, 2, "refused word 2\n"),
    (&["sim", "8x8"], FIRST, 2, "refused word 2\n"),
    (&["sim", "8x5"], FIRST, 2, "refused word 2\n"),
    (&["sim", "0x1"], FIRST, 2, "refused word 2\n"),
    (&["sim", "2x2x1"], FIRST, 2, "refused word 2\n"),
    (&["sim", "2X2"], FIRST, 2, "refused word 2\n"),
    (&["sim", "02x2"], FIRST, 2, "refused word 2\n"),
    (&["sim", "2x2", "turns=0"], FIRST, 2, "refused word 3\n"),
    (&["sim", "1x9"], FIRST, 2, "refused word 2\n"),
    (&["sim", "1x0"], FIRST, 2, "refused word 2\n"),
    (&["sim", "turns=5", "1x1"], FIRST, 2, "refused word 2\n"),
    (
        &["sim", "1x1", "turns=5", "turns=5"],
        FIRST,
        2,
        "refused word 4\n",
    ),
    (&["sim", "1x1", "turns=0"], FIRST, 2, "refused word 3\n"),
    (
        &["sim", "1x1", "turns=1000001"],
        FIRST,
        2,
        "refused word 3\n",
    ),
    (
        &["sim", "1x1", "looks=1000000001"],
        FIRST,
        2,
        "refused word 3\n",
    ),
    (
        &["sim", "1x1", "steps=1000000000001"],
        FIRST,
        2,
        "refused word 3\n",
    ),
    (
        &["sim", "1x1", "seed=1", "kind=mixed", "seed=1"],
        FIRST,
        2,
        "refused word 5\n",
    ),
    (
        &["sim", "1x1", "kind=mixed", "kind=round"],
        FIRST,
        2,
        "refused word 4\n",
    ),
    (&["sim", "1x1", "kind=drawn"], FIRST, 2, "refused word 3\n"),
    (
        &["sim", "1x1", "seed=18446744073709551616"],
        FIRST,
        2,
        "refused word 3\n",
    ),
    (
        &["sim", "1x1", "trace", "trace"],
        FIRST,
        2,
        "refused word 4\n",
    ),
    (&["run"], FIRST, 2, "refused word 2\n"),
    (&["run", "1x1", "looks=5"], FIRST, 2, "refused word 3\n"),
    (&["sim", "1x1", "threads"], FIRST, 2, "refused word 3\n"),
];

/// Texts with one fault, and texts at the edge of the grammar that have none.
const TEXTS: &[Row] = &[
    (CHECK, b"", 3, "refused line 1 NoCode\n"),
    (CHECK, b"li r1", 3, "refused line 1 BadOperand\n"),
    (CHECK, b"li r16 1", 3, "refused line 1 BadRegister\n"),
    (CHECK, b"li r1 01", 3, "refused line 1 BadNumber\n"),
    (
        CHECK,
        b"li r1 18446744073709551616",
        3,
        "refused line 1 BadNumber\n",
    ),
    (CHECK, b"foo", 3, "refused line 1 UnknownWord\n"),
    (CHECK, b"jmp x", 3, "refused line 1 NoLabel\n"),
    (
        CHECK,
        b"a: halt\na: halt",
        3,
        "refused line 2 DoubleLabel\n",
    ),
    (
        CHECK,
        b"halt\n.pages 2",
        3,
        "refused line 2 DirectiveLate\n",
    ),
    (
        CHECK,
        b".pages 257\nhalt",
        3,
        "refused line 1 Limit Pages\n",
    ),
    (CHECK, b"lock 0", 3, "refused line 1 Limit Lock\n"),
    (
        CHECK,
        b".init 64 1\nhalt",
        3,
        "refused line 1 Limit Address\n",
    ),
    (CHECK, b"\x80", 3, "refused line 1 NotAscii\n"),
    (
        CHECK,
        b"aaaaaaaaaaaaaaaaaaaaaaaaaaaaaaaaaaaaaaaaaaaaaaaaaaaaaaaaaaaaaaaaaaaaaaaaaaaaaaaaaaaaaaaaaaaaaaaaaaaaaaaaaaaaaaaaaaaaaaaaaaaaaaaaaaaaaaaaaaaaaaaaaaaaaaaaaaaaaaaaaaaaaaaaaaaaaaaaaaaaaaaaaaaaaaaaaaaaaaaaa",
        3,
        "refused line 1 LongLine\n",
    ),
    (
        CHECK,
        b"r1: halt\njmp r1",
        0,
        "program pages 1 words 64 locks 0 barriers 0 flags 0 code 2\n",
    ),
    (CHECK, b"a:b halt", 3, "refused line 1 UnknownWord\n"),
    (CHECK, b"x:", 3, "refused line 1 NoCode\n"),
    (CHECK, b"li r1 +1", 3, "refused line 1 BadNumber\n"),
    (CHECK, b"li R1 1", 3, "refused line 1 BadRegister\n"),
    (CHECK, b".words 0\nhalt", 3, "refused line 1 Limit Words\n"),
    (
        CHECK,
        b".init 0 1\n.pages 2\nhalt",
        3,
        "refused line 2 DirectiveLate\n",
    ),
    (
        CHECK,
        b"aaaaaaaaaaaaaaaaaaaaaaaaaaaaaaaaa: halt",
        3,
        "refused line 1 UnknownWord\n",
    ),
    (
        CHECK,
        b"halt\r",
        0,
        "program pages 1 words 64 locks 0 barriers 0 flags 0 code 1\n",
    ),
    (CHECK, b"\x00halt", 3, "refused line 1 NotAscii\n"),
    (
        CHECK,
        b"halt ;\x00",
        0,
        "program pages 1 words 64 locks 0 barriers 0 flags 0 code 1\n",
    ),
    (CHECK, b".locks 65\nhalt", 3, "refused line 1 Limit Locks\n"),
    (
        CHECK,
        b".barriers 17\nhalt",
        3,
        "refused line 1 Limit Barriers\n",
    ),
    (CHECK, b".flags 65\nhalt", 3, "refused line 1 Limit Flags\n"),
    (CHECK, b"bar 0", 3, "refused line 1 Limit Barrier\n"),
    (CHECK, b"set 0", 3, "refused line 1 Limit Flag\n"),
];

/// Texts with two faults, of which the first in order is named.
const ORDER: &[Row] = &[
    (
        CHECK,
        b"\x80aaaaaaaaaaaaaaaaaaaaaaaaaaaaaaaaaaaaaaaaaaaaaaaaaaaaaaaaaaaaaaaaaaaaaaaaaaaaaaaaaaaaaaaaaaaaaaaaaaaaaaaaaaaaaaaaaaaaaaaaaaaaaaaaaaaaaaaaaaaaaaaaaaaaaaaaaaaaaaaaaaaaaaaaaaaaaaaaaaaaaaaaaaaaaaaaaaaaaaaa",
        3,
        "refused line 1 NotAscii\n",
    ),
    (
        CHECK,
        b"a: halt\na: aaaaaaaaaaaaaaaaaaaaaaaaaaaaaaaaaaaaaaaaaaaaaaaaaaaaaaaaaaaaaaaaaaaaaaaaaaaaaaaaaaaaaaaaaaaaaaaaaaaaaaaaaaaaaaaaaaaaaaaaaaaaaaaaaaaaaaaaaaaaaaaaaaaaaaaaaaaaaaaaaaaaaaaaaaaaaaaaaaaaaaaaaaaaaaaaaaaaaa",
        3,
        "refused line 2 LongLine\n",
    ),
    (CHECK, b"a: halt\na: foo", 3, "refused line 2 DoubleLabel\n"),
    (CHECK, b"foo r16 01", 3, "refused line 1 UnknownWord\n"),
    (CHECK, b"halt\n.pages", 3, "refused line 2 DirectiveLate\n"),
    (CHECK, b"li r16", 3, "refused line 1 BadOperand\n"),
    (CHECK, b"li r16 01", 3, "refused line 1 BadRegister\n"),
    (CHECK, b"wait 01 +1", 3, "refused line 1 BadNumber\n"),
    (CHECK, b"waitr 0 r16", 3, "refused line 1 Limit Flag\n"),
    (
        CHECK,
        b".init 64 01\nhalt",
        3,
        "refused line 1 Limit Address\n",
    ),
    (CHECK, b"beq r1 r16 x", 3, "refused line 1 BadRegister\n"),
    (CHECK, b"jmp x\nfoo", 3, "refused line 1 NoLabel\n"),
    (CHECK, b"foo\njmp x", 3, "refused line 1 UnknownWord\n"),
    (
        CHECK,
        b"halt\nli r1\n.pages 2",
        3,
        "refused line 2 BadOperand\n",
    ),
    (CHECK, b"jmp x\nx: li r1", 3, "refused line 2 BadOperand\n"),
    (CHECK, b"x:\nfoo", 3, "refused line 2 UnknownWord\n"),
];

#[test]
fn refuses_as_told(rt: HostRuntime) -> Result<(), Fail> {
    for table in [WORDS, TEXTS, ORDER] {
        all_answer(&rt, table)?;
    }
    Ok(())
}

#[test]
fn names_what_it_refuses(rt: HostRuntime) {
    assert_eq!(rt; refuse_word(2).as_str(), "refused word 2\n");
    assert_eq!(rt;
        refuse_word(u64::MAX).as_str(),
        "refused word 18446744073709551615\n"
    );
    assert_eq!(rt;
        refuse_line(0, "TooLong").as_str(),
        "refused line 0 TooLong\n"
    );
}
