use dsm_lex::lines::next_line;
use dsm_lex::spans::Span;
use dsm_lex::spelling::{name, number};
use dsm_lex::splitting::{Words, split};
use std::test::Fail;

fn line_at(text: &[u8], from: usize) -> Option<(usize, usize)> {
    let line = next_line(text, from.min(text.len()))?;
    Some((line.start, line.end))
}

// The words of the line at this place, which has at most 200 bytes.
fn words_at(text: &[u8], from: usize) -> Option<Words> {
    let line = next_line(text, from.min(text.len()))?;
    if line.end - line.start > 200 {
        return None;
    }
    Some(split(text, line))
}

fn spans(at: [(usize, usize); 6]) -> [Span; 6] {
    at.map(|(start, end)| Span { start, end })
}

#[test]
fn cuts_lines(rt: HostRuntime) -> Result<(), Fail> {
    let rows = [
        ("", 0, None),
        ("ab\n\nc", 0, Some((0, 2))),
        ("ab\n\nc", 1, Some((1, 2))),
        ("ab\n\nc", 3, Some((3, 3))),
        ("ab\n\nc", 4, Some((4, 5))),
        ("ab\n\nc", 5, None),
        ("ab\n", 3, None),
    ];
    for (text, from, want) in rows {
        assert_eq!(rt; line_at(text.as_bytes(), from), want);
    }
    Ok(())
}

#[test]
fn splits_lines(rt: HostRuntime) -> Result<(), Fail> {
    let rows: [(&[u8], usize, u32, [(usize, usize); 6]); 5] = [
        (
            b"li r1 7\nhalt\n",
            0,
            3,
            [(0, 2), (3, 5), (6, 7), (7, 7), (7, 7), (7, 7)],
        ),
        (
            b"li r1 7\nhalt\n",
            8,
            1,
            [(8, 12), (12, 12), (12, 12), (12, 12), (12, 12), (12, 12)],
        ),
        (
            b" \t;x y",
            0,
            0,
            [(6, 6), (6, 6), (6, 6), (6, 6), (6, 6), (6, 6)],
        ),
        (
            b"\tst  r1\r;\x80 z",
            0,
            2,
            [(1, 3), (5, 7), (12, 12), (12, 12), (12, 12), (12, 12)],
        ),
        (
            b"a b c d e f g",
            0,
            7,
            [(0, 1), (2, 3), (4, 5), (6, 7), (8, 9), (10, 11)],
        ),
    ];
    for (text, from, count, at) in rows {
        assert_eq!(rt;
            words_at(text, from),
            Some(Words {
                count,
                at: spans(at)
            })
        );
    }
    Ok(())
}

#[test]
fn reads_numbers(rt: HostRuntime) -> Result<(), Fail> {
    let rows = [
        ("0", Some(0)),
        ("18446744073709551615", Some(u64::MAX)),
        ("18446744073709551616", None),
        ("01", None),
        ("+1", None),
        ("", None),
    ];
    for (word, want) in rows {
        assert_eq!(rt; number(word.as_bytes()), want);
    }
    Ok(())
}

#[test]
fn tells_names(rt: HostRuntime) -> Result<(), Fail> {
    let rows = [
        ("abcdefghijklmnopqrstuvwxyz_01234", true),
        ("abcdefghijklmnopqrstuvwxyz_012345", false),
        ("_9", true),
        ("9a", false),
        ("aB", false),
        ("", false),
    ];
    for (word, want) in rows {
        assert_eq!(rt; name(word.as_bytes()), want);
    }
    Ok(())
}
