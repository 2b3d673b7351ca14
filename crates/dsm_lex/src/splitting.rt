ghost use Rattle.std.specs.Prelude.{◌≡◌, ◌+◌, ◌-◌, ◌<◌, ◌≤◌, ◌^◌, [], ◌∷◌, length, drop, slice_set, slice_index_or, IfNone, IfSome};
ghost use Rattle.dsm_lex.specs.Lexical.{spanned, content_of, words_of, LiesIn, LiesWithin, EachPlace};

use crate::scanning::{first_end, first_other};
use crate::spans::Span;

/// The number of a line's words, and where the first six stand. A place without a word has the empty span at
/// the line's end.
#[derive(Clone, Copy, Debug, PartialEq, Eq)]
pub struct Words {
    pub count: u32,
    pub at: [Span; 6],
}

impl Words {
    /// Counts a word, and keeps its span while a place is free.
    fn push(&mut self, word: Span)
        requires { self.old.count < 2 ^ 32 - 1 }
        ensures count { self.new.count ≡ self.old.count + 1 }
        ensures at { self.new.at ≡ slice_set self.old.at self.old.count word }
    {
        let place = self.count as usize;
        if place < self.at.len() {
            self.at[place] = word;
        }
        self.count += 1;
    }
}

/// The words of the content of a line.
pub fn split(text: &[u8], line: Span) -> Words
    requires within { LiesIn line text.now }
    requires short { line.end - line.start < 2 ^ 32 }
    ensures count { result.count ≡ length (words_of (content_of (spanned text.now line))) }
    ensures words { EachPlace result.at (λ k word. k < result.count → spanned text.now word ≡ slice_index_or (words_of (content_of (spanned text.now line))) k []) }
    ensures unused { EachPlace result.at (λ k word. result.count ≤ k → word ≡ record { start = line.end; end = line.end }) }
    ensures within { EachPlace result.at (λ k word. LiesWithin word line) }
{
    let front = &text[..line.end];
    let unused = Span {
        start: line.end,
        end: line.end,
    };
    let mut words = Words {
        count: 0,
        at: [unused; 6],
    };
    let mut from = line.start;
    while let Some(word) = next_word(front, from) {
        words.push(word);
        from = word.end;
    }
    words
}

/// The first word from a place on, before the comment. What stands behind it is not looked at.
pub fn next_word(bytes: &[u8], from: usize) -> Option<Span>
    requires { from ≤ length bytes.now }
    ensures none { IfNone result (words_of (content_of (drop from bytes.now)) ≡ []) }
    ensures words { IfSome result (λ word. words_of (content_of (drop from bytes.now)) ≡ spanned bytes.now word ∷ words_of (content_of (drop word.end bytes.now))) }
    ensures behind { IfSome result (λ word. from ≤ word.start) }
    ensures some { IfSome result (λ word. word.start < word.end) }
    ensures within { IfSome result (λ word. word.end ≤ length bytes.now) }
{
    let start = first_other(bytes, from);
    if start == bytes.len() || bytes[start] == b';' {
        return None;
    }
    let end = first_end(bytes, start);
    Some(Span { start, end })
}
