ghost use Rattle.std.specs.Prelude.{◌≡◌, ◌+◌, ◌<◌, ◌≤◌, ◌↔◌, ◌∷◌, length, drop, slice_index, IsNone, IfSome};
ghost use Rattle.dsm_lex.specs.Lexical.{spanned, lines_of, LiesIn};

use crate::scanning::first_place;
use crate::spans::Span;

/// The first line of what stands from a place on, without its line feed, and None exactly at the text's end.
pub fn next_line(text: &[u8], from: usize) -> Option<Span>
    requires { from ≤ length text.now }
    ensures none { IsNone result ↔ (from ≡ length text.now) }
    ensures start { IfSome result (λ line. line.start ≡ from) }
    ensures within { IfSome result (λ line. LiesIn line text.now) }
    ensures lines { IfSome result (λ line. lines_of (drop from text.now) ≡ spanned text.now line ∷ lines_of (drop (line.end + 1) text.now)) }
    ensures feed { IfSome result (λ line. line.end < length text.now → slice_index text.now line.end ≡ 10) }
{
    if from == text.len() {
        return None;
    }
    let end = first_place(text, from, b'\n');
    Some(Span { start: from, end })
}
