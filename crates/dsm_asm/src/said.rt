ghost use Rattle.std.specs.Prelude.{◌≡◌, ◌<◌, ◌≤◌, ◌^◌, ◌&&◌, ◌||◌, nat_le, [], length, MatchOption, slice_index_or, slice_get, drop};
ghost use Rattle.std.specs.Option.{option_map};
ghost use Rattle.dsm_lex.specs.Lexical.{is_blank as blank};
ghost use Rattle.dsm_grammar.specs.Lines.{is_plain as plain, is_short as short, label_in, first_label, label_of, statement_of};
ghost use Rattle.dsm_asm.specs.Words.{Holds};
ghost use Rattle.dsm_asm.specs.Lines.{line_words, Splits, Says};

use crate::cutting::first_word;
use crate::operands::Operands;
use dsm_lex::spans::Span;
use dsm_lex::spelling::name;
use dsm_lex::splitting::{Words, split};

/// The most bytes of a line, without its line feed.
pub const MOST_LINE: usize = 200;

/// The directive or the instruction of a line.
#[derive(Clone, Copy)]
pub struct Statement<'a> {
    pub name: &'a [u8],
    pub operands: Operands<'a>,
}

/// What a line says.
#[derive(Clone, Copy)]
pub struct Said<'a> {
    /// Before the comment there are printable ASCII and blanks alone.
    pub plain: bool,
    /// The line has 200 bytes at most.
    pub short: bool,
    /// The label that the line defines.
    pub label: Option<&'a [u8]>,
    pub statement: Option<Statement<'a>>,
}

/// The words that a line begins with.
#[derive(Clone, Copy)]
pub struct FirstWords<'a> {
    /// The label that the line defines.
    pub label: Option<&'a [u8]>,
    /// The name of the directive or the instruction.
    pub name: Option<&'a [u8]>,
}

/// The words that this line begins with. What stands behind them is looked at only where there is a label.
pub fn first_words(line: &[u8]) -> FirstWords<'_>
    ensures label { option_map (λ label. label.now) result.label ≡ label_of line.now }
    ensures name { option_map (λ name. name.now) result.name ≡ slice_get (statement_of line.now) 0 }
{
    let Some((word, behind)) = first_word(line) else {
        return FirstWords {
            label: None,
            name: None,
        };
    };
    match label_name(word) {
        Some(label) => FirstWords {
            label: if may_label(line) { Some(label) } else { None },
            name: word_at_front(behind),
        },
        None => FirstWords {
            label: None,
            name: Some(word),
        },
    }
}

/// Whether a label of the line counts.
fn may_label(line: &[u8]) -> bool
    ensures { result ≡ (plain line.now && short line.now) }
{
    line.len() <= MOST_LINE && is_plain(line)
}

/// The first word, where there is one.
fn word_at_front(line: &[u8]) -> Option<&[u8]>
    ensures { option_map (λ word. word.now) result ≡ slice_get (line_words line.now) 0 }
{
    let (word, _) = first_word(line)?;
    Some(word)
}

/// What this line says.
pub fn read_line(line: &[u8]) -> Said<'_>
    requires { length line.now < 2 ^ 32 }
    ensures plain { result.plain ≡ plain line.now }
    ensures short { result.short ≡ short line.now }
    ensures label { option_map (λ label. label.now) result.label ≡ label_of line.now }
    ensures statement { MatchOption result.statement (statement_of line.now ≡ []) (λ s. Says (statement_of line.now) s) }
{
    let words = Cut::new(line);
    let first = words.first_label();
    let plain = is_plain(line);
    let short = line.len() <= MOST_LINE;
    Said {
        plain,
        short,
        label: if plain && short { first } else { None },
        statement: words.statement(if first.is_some() { 1 } else { 0 }),
    }
}

fn is_plain_byte(byte: u8) -> bool
    ensures { result ≡ (blank byte || nat_le 32 byte && nat_le byte 126) }
{
    byte == b' ' || byte == b'\t' || byte == b'\r' || (32 <= byte && byte <= 126)
}

fn is_plain(line: &[u8]) -> bool
    ensures { result ≡ plain line.now }
{
    for byte in line {
        if *byte == b';' {
            return true;
        }
        if !is_plain_byte(*byte) {
            return false;
        }
    }
    true
}

/// The name that a word defines as a label.
fn label_name(word: &[u8]) -> Option<&[u8]>
    ensures { option_map (λ label. label.now) result ≡ label_in word.now }
{
    let label = word.strip_suffix(b":")?;
    if name(label) { Some(label) } else { None }
}

/// A line that is cut into words.
#[derive(Clone, Copy)]
struct Cut<'a> {
    line: &'a [u8],
    words: Words,
    ghost splits: { Splits line.now words },
}

impl<'a> Cut<'a> {
    fn new(line: &'a [u8]) -> Cut<'a>
        requires { length line.now < 2 ^ 32 }
        ensures { result.line.now ≡ line.now }
    {
        let whole = Span {
            start: 0,
            end: line.len(),
        };
        let words = split(line, whole);
        Cut { line, words }
    }

    /// The number of words.
    fn count(self) -> usize
        ensures { result ≡ length (line_words self.entry.line.now) }
    {
        self.words.count as usize
    }

    /// The word at place `k`, from 0.
    fn word(self, k: usize) -> &'a [u8]
        requires few { k < 6 }
        requires within { k < length (line_words self.line.now) }
        ensures { result.now ≡ slice_index_or (line_words self.entry.line.now) k [] }
    {
        let word = self.words.at[k];
        &self.line[word.start..word.end]
    }

    /// The label that the words begin with.
    fn first_label(self) -> Option<&'a [u8]>
        ensures { option_map (λ label. label.now) result ≡ first_label (line_words self.entry.line.now) }
    {
        if self.count() == 0 {
            return None;
        }
        label_name(self.word(0))
    }

    /// The words from place `from` on, as operands.
    fn operands(self, from: usize) -> Operands<'a>
        requires few { from ≤ 2 }
        requires within { from ≤ length (line_words self.line.now) }
        ensures { Holds result (drop from (line_words self.entry.line.now)) }
    {
        match self.count() - from {
            0 => Operands::Zero,
            1 => Operands::One(self.word(from)),
            2 => Operands::Two(self.word(from), self.word(from + 1)),
            3 => Operands::Three(self.word(from), self.word(from + 1), self.word(from + 2)),
            _ => Operands::More,
        }
    }

    /// The words from place `from` on, as a statement.
    fn statement(self, from: usize) -> Option<Statement<'a>>
        requires few { from ≤ 1 }
        requires within { from ≤ length (line_words self.line.now) }
        ensures { MatchOption result (drop from (line_words self.entry.line.now) ≡ []) (λ s. Says (drop from (line_words self.entry.line.now)) s) }
    {
        if from == self.count() {
            return None;
        }
        Some(Statement {
            name: self.word(from),
            operands: self.operands(from + 1),
        })
    }
}
