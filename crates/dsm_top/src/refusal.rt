ghost use Rattle.std.specs.Prelude.{◌≡◌, ◌<◌, ◌≤◌, ◌^◌, ◌++◌, length};
ghost use Rattle.dsm_top.specs.Refusals.{refused_word, refused_line, kind_name as name_of_kind, limit_name as name_of_limit};

use arrayvec::ArrayString;
use dsm_grammar::fault::{AsmKind, Bound};
use itoa::Buffer;

/// Room for the one line of an answer that refuses.
pub type Line = ArrayString<64>;

/// The answer to words whose first faulty one has this number. It takes no memory.
#[tactic(auto, unfolding(crate::specs::Refusals::refused_word))]
pub fn refuse_word(k: u64) -> Line
    ensures { result.bytes ≡ refused_word k }
{
    let mut line = Line::new();
    line.push_str("refused word ");
    line.push_str(Buffer::new().format(k));
    line.push_str("\n");
    line
}

/// The answer to a text that is refused at line `n`, from 1, or 0 for the whole text. It takes no memory.
#[tactic(auto, unfolding(crate::specs::Refusals::refused_line))]
pub fn refuse_line(n: u64, kind: &str) -> Line
    requires { length kind.now ≤ 20 }
    ensures { result.bytes ≡ refused_line n kind.now }
{
    let mut line = Line::new();
    line.push_str("refused line ");
    line.push_str(Buffer::new().format(n));
    line.push_str(" ");
    line.push_str(kind);
    line.push_str("\n");
    line
}

/// The name of what is wrong with a line.
pub fn kind_name(kind: AsmKind) -> &'static str
    ensures name { result.now ≡ name_of_kind kind }
    ensures short { length result.now ≤ 20 }
{
    match kind {
        AsmKind::NotAscii => "NotAscii",
        AsmKind::LongLine => "LongLine",
        AsmKind::DoubleLabel => "DoubleLabel",
        AsmKind::UnknownWord => "UnknownWord",
        AsmKind::DirectiveLate => "DirectiveLate",
        AsmKind::BadOperand => "BadOperand",
        AsmKind::BadRegister => "BadRegister",
        AsmKind::BadNumber => "BadNumber",
        AsmKind::NoLabel => "NoLabel",
        AsmKind::Limit(bound) => limit_name(bound),
        AsmKind::NoCode => "NoCode",
    }
}

/// The limit that is broken, in two words.
fn limit_name(bound: Bound) -> &'static str
    ensures name { result.now ≡ name_of_limit bound }
    ensures short { length result.now ≤ 20 }
{
    match bound {
        Bound::Pages => "Limit Pages",
        Bound::Words => "Limit Words",
        Bound::Locks => "Limit Locks",
        Bound::Barriers => "Limit Barriers",
        Bound::Flags => "Limit Flags",
        Bound::Address => "Limit Address",
        Bound::Lock => "Limit Lock",
        Bound::Barrier => "Limit Barrier",
        Bound::Flag => "Limit Flag",
        Bound::Code => "Limit Code",
    }
}
