ghost use Rattle.std.specs.Prelude.{◌≡◌, ◌<◌, ◌≤◌, ◌^◌, ℕ, List, [], ◌∷◌, None, Some, Option, IfOk, IfErr, MatchResult};
ghost use Rattle.dsm_lex.specs.Lexical.{number_of};
ghost use Rattle.dsm_grammar.specs.Operands.{register_of, value_of, value_fault, Place, Register as AReg, Number as ANumber, Within, Label as ALabel};
ghost use Rattle.dsm_grammar.specs.Statements.{three_registers as registers_three, two_registers_number as registers_number, two_registers_label as registers_label};
ghost use Rattle.dsm_asm.specs.Words.{listed, words_fault, Reads};
ghost use Rattle.dsm_asm.specs.Table.{places};

use crate::labels::Labels;
use dsm_grammar::fault::{AsmKind, Bound};
use dsm_isa::reg::Reg;
use dsm_lex::spelling::number;

/// The words behind the name of a statement. No statement takes more than three.
#[derive(Clone, Copy)]
pub enum Operands<'a> {
    Zero,
    One(&'a [u8]),
    Two(&'a [u8], &'a [u8]),
    Three(&'a [u8], &'a [u8], &'a [u8]),
    More,
}

/// The register that a word names.
pub fn register(word: &[u8]) -> Result<Reg, AsmKind>
    ensures ok { IfOk result (λ r. register_of word.now ≡ Some r) }
    ensures err { IfErr result (λ kind. value_fault AReg (register_of word.now) ≡ Some kind) }
{
    match register_number(word) {
        Some(r) => Ok(r),
        None => Err(AsmKind::BadRegister),
    }
}

fn register_number(word: &[u8]) -> Option<Reg>
    ensures { result ≡ register_of word.now }
{
    let digits = word.strip_prefix(b"r")?;
    Reg::new(u32::try_from(number(digits)?).ok()?)
}

/// The number that a word spells.
pub fn any_number(word: &[u8]) -> Result<u64, AsmKind>
    ensures ok { IfOk result (λ n. number_of word.now ≡ Some n) }
    ensures err { IfErr result (λ kind. value_fault ANumber (number_of word.now) ≡ Some kind) }
{
    number(word).ok_or(AsmKind::BadNumber)
}

/// The number that a word spells, where it is from `first` on and below `end`.
pub fn number_within(word: &[u8], bound: Bound, first: u32, end: u32) -> Result<u32, AsmKind>
    ensures ok { IfOk result (λ n. number_of word.now ≡ Some n) }
    ensures sound { IfOk result (λ n. value_fault (Within bound first end) (number_of word.now) ≡ None) }
    ensures range { IfOk result (λ n. (first ≤ n) × (n < end)) }
    ensures err { IfErr result (λ kind. value_fault (Within bound first end) (number_of word.now) ≡ Some kind) }
{
    let n = any_number(word)?;
    if u64::from(first) <= n && n < u64::from(end) {
        Ok(n as u32)
    } else {
        Err(AsmKind::Limit(bound))
    }
}

/// The place that a label stands for.
pub fn place(word: &[u8], labels: &Labels) -> Result<u32, AsmKind>
    ensures ok { IfOk result (λ to. places labels.now word.now ≡ Some to) }
    ensures err { IfErr result (λ kind. value_fault ALabel (places labels.now word.now) ≡ Some kind) }
{
    match labels.get(word) {
        Some(label) => Ok(label.place),
        None => Err(AsmKind::NoLabel),
    }
}

impl<'a> Operands<'a> {
    /// Nothing.
    pub fn nothing(self) -> Result<(), AsmKind>
        ensures ok { IfOk result (λ u. (labels : List ℕ → Option ℕ) → Reads labels [] (listed self.entry) []) }
        ensures err { IfErr result (λ kind. (labels : List ℕ → Option ℕ) → words_fault labels [] (listed self.entry) ≡ Some kind) }
    {
        match self {
            Operands::Zero => Ok(()),
            _ => Err(AsmKind::BadOperand),
        }
    }

    /// One register.
    pub fn register(self) -> Result<Reg, AsmKind>
        ensures ok { IfOk result (λ r. (labels : List ℕ → Option ℕ) → Reads labels (AReg ∷ []) (listed self.entry) (r ∷ [])) }
        ensures err { IfErr result (λ kind. (labels : List ℕ → Option ℕ) → words_fault labels (AReg ∷ []) (listed self.entry) ≡ Some kind) }
    {
        let Operands::One(a) = self else {
            return Err(AsmKind::BadOperand);
        };
        register(a)
    }

    /// A register and a number.
    pub fn register_number(self) -> Result<(Reg, u64), AsmKind>
        ensures ok { IfOk result (λ v. (labels : List ℕ → Option ℕ) → Reads labels (AReg ∷ ANumber ∷ []) (listed self.entry) (v.0 ∷ v.1 ∷ [])) }
        ensures err { IfErr result (λ kind. (labels : List ℕ → Option ℕ) → words_fault labels (AReg ∷ ANumber ∷ []) (listed self.entry) ≡ Some kind) }
    {
        let Operands::Two(d, k) = self else {
            return Err(AsmKind::BadOperand);
        };
        Ok((register(d)?, any_number(k)?))
    }

    /// Two registers.
    pub fn two_registers(self) -> Result<(Reg, Reg), AsmKind>
        ensures ok { IfOk result (λ v. (labels : List ℕ → Option ℕ) → Reads labels (AReg ∷ AReg ∷ []) (listed self.entry) (v.0 ∷ v.1 ∷ [])) }
        ensures err { IfErr result (λ kind. (labels : List ℕ → Option ℕ) → words_fault labels (AReg ∷ AReg ∷ []) (listed self.entry) ≡ Some kind) }
    {
        let Operands::Two(d, a) = self else {
            return Err(AsmKind::BadOperand);
        };
        Ok((register(d)?, register(a)?))
    }

    /// Three registers.
    pub fn three_registers(self) -> Result<(Reg, Reg, Reg), AsmKind>
        ensures ok { IfOk result (λ v. (labels : List ℕ → Option ℕ) → Reads labels registers_three (listed self.entry) (v.0 ∷ v.1 ∷ v.2 ∷ [])) }
        ensures err { IfErr result (λ kind. (labels : List ℕ → Option ℕ) → words_fault labels registers_three (listed self.entry) ≡ Some kind) }
    {
        let Operands::Three(d, a, b) = self else {
            return Err(AsmKind::BadOperand);
        };
        Ok((register(d)?, register(a)?, register(b)?))
    }

    /// Two registers and a number.
    pub fn two_registers_number(self) -> Result<(Reg, Reg, u64), AsmKind>
        ensures ok { IfOk result (λ v. (labels : List ℕ → Option ℕ) → Reads labels registers_number (listed self.entry) (v.0 ∷ v.1 ∷ v.2 ∷ [])) }
        ensures err { IfErr result (λ kind. (labels : List ℕ → Option ℕ) → words_fault labels registers_number (listed self.entry) ≡ Some kind) }
    {
        let Operands::Three(d, a, k) = self else {
            return Err(AsmKind::BadOperand);
        };
        Ok((register(d)?, register(a)?, any_number(k)?))
    }

    /// A label.
    pub fn label(self, labels: &Labels) -> Result<u32, AsmKind>
        ensures ok { IfOk result (λ to. Reads (places labels.now) (ALabel ∷ []) (listed self.entry) (to ∷ [])) }
        ensures err { IfErr result (λ kind. words_fault (places labels.now) (ALabel ∷ []) (listed self.entry) ≡ Some kind) }
    {
        let Operands::One(a) = self else {
            return Err(AsmKind::BadOperand);
        };
        place(a, labels)
    }

    /// Two registers and a label.
    pub fn two_registers_label(self, labels: &Labels) -> Result<(Reg, Reg, u32), AsmKind>
        ensures ok { IfOk result (λ v. Reads (places labels.now) registers_label (listed self.entry) (v.0 ∷ v.1 ∷ v.2 ∷ [])) }
        ensures err { IfErr result (λ kind. words_fault (places labels.now) registers_label (listed self.entry) ≡ Some kind) }
    {
        let Operands::Three(a, b, to) = self else {
            return Err(AsmKind::BadOperand);
        };
        Ok((register(a)?, register(b)?, place(to, labels)?))
    }

    /// A number from `first` on and below `end`.
    pub fn within(self, bound: Bound, first: u32, end: u32) -> Result<u32, AsmKind>
        ensures ok { IfOk result (λ n. (labels : List ℕ → Option ℕ) → Reads labels (Within bound first end ∷ []) (listed self.entry) (n ∷ [])) }
        ensures range { IfOk result (λ n. (first ≤ n) × (n < end)) }
        ensures err { IfErr result (λ kind. (labels : List ℕ → Option ℕ) → words_fault labels (Within bound first end ∷ []) (listed self.entry) ≡ Some kind) }
    {
        let Operands::One(a) = self else {
            return Err(AsmKind::BadOperand);
        };
        number_within(a, bound, first, end)
    }

    /// A number below `end`, and any number.
    pub fn below_number(self, bound: Bound, end: u32) -> Result<(u32, u64), AsmKind>
        ensures ok { IfOk result (λ v. (labels : List ℕ → Option ℕ) → Reads labels (Within bound 0 end ∷ ANumber ∷ []) (listed self.entry) (v.0 ∷ v.1 ∷ [])) }
        ensures range { IfOk result (λ v. v.0 < end) }
        ensures err { IfErr result (λ kind. (labels : List ℕ → Option ℕ) → words_fault labels (Within bound 0 end ∷ ANumber ∷ []) (listed self.entry) ≡ Some kind) }
    {
        let Operands::Two(f, k) = self else {
            return Err(AsmKind::BadOperand);
        };
        Ok((number_within(f, bound, 0, end)?, any_number(k)?))
    }

    /// A number below `end`, and a register.
    pub fn below_register(self, bound: Bound, end: u32) -> Result<(u32, Reg), AsmKind>
        ensures ok { IfOk result (λ v. (labels : List ℕ → Option ℕ) → Reads labels (Within bound 0 end ∷ AReg ∷ []) (listed self.entry) (v.0 ∷ v.1 ∷ [])) }
        ensures err { IfErr result (λ kind. (labels : List ℕ → Option ℕ) → words_fault labels (Within bound 0 end ∷ AReg ∷ []) (listed self.entry) ≡ Some kind) }
    {
        let Operands::Two(f, a) = self else {
            return Err(AsmKind::BadOperand);
        };
        Ok((number_within(f, bound, 0, end)?, register(a)?))
    }
}
