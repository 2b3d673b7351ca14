ghost use Rattle.std.specs.Prelude.{◌≡◌, ◌+◌, ◌<◌, ◌≤◌, ◌↔◌, [], ◌∷◌, length, IsNone, IfNone, IfSome};
ghost use Rattle.dsm_lex.specs.Lexical.{lines_of};
ghost use Rattle.dsm_asm.specs.Lines.{line_words};

use dsm_lex::lines::next_line;
use dsm_lex::splitting::next_word;

/// The first line of a text and what stands behind it, and None exactly where the text is empty.
pub fn first_line(text: &[u8]) -> Option<(&[u8], &[u8])>
    ensures none { IsNone result ↔ (text.now ≡ []) }
    ensures lines { IfSome result (λ cut. lines_of text.now ≡ cut.0.now ∷ lines_of cut.1.now) }
    ensures short { IfSome result (λ cut. length cut.0.now ≤ length text.now) }
    ensures shorter { IfSome result (λ cut. length cut.1.now < length text.now) }
{
    let line = next_line(text, 0)?;
    if line.end < text.len() {
        Some((&text[..line.end], &text[line.end + 1..]))
    } else {
        Some((text, &[]))
    }
}

/// The first word of a line and what stands behind it. No more of the line is looked at.
pub fn first_word(line: &[u8]) -> Option<(&[u8], &[u8])>
    ensures none { IfNone result (line_words line.now ≡ []) }
    ensures words { IfSome result (λ cut. line_words line.now ≡ cut.0.now ∷ line_words cut.1.now) }
{
    let word = next_word(line, 0)?;
    Some((&line[word.start..word.end], &line[word.end..]))
}
