ghost use Rattle.std.specs.Prelude.{◌≡◌, ◌<◌, ◌^◌, ℕ, List, length, Some, None, IfOk, OnOk, slice_get, false, if◌then◌else◌};
ghost use Rattle.std.specs.Option.{option_map, option_map_or, option_or};
ghost use Rattle.std.specs.Str.{bytes_eq};
ghost use Rattle.dsm_lex.specs.Lexical.{lines_of};
ghost use Rattle.dsm_grammar.specs.Grammar.{has_instruction};
ghost use Rattle.dsm_grammar.specs.Lines.{statement_of};
ghost use Rattle.dsm_asm.specs.Labelled.{Labelled};
ghost use Rattle.dsm_asm.specs.Table.{held};

use crate::cutting::first_line;
use crate::forms::form_of;
use crate::labels::{Label, Labels};
use crate::said::first_words;
use std::alloc::{AllocError, Global};

/// The labels that the lines of a text define.
pub fn labels_of(alloc: Global, text: &[u8]) -> Result<Labels<'_>, AllocError>
    requires { length text.now < 2 ^ 32 }
    ensures { IfOk result (λ labels. Labelled (lines_of text.now) (held labels)) }
{
    let mut labels = Labels::new(alloc);
    let mut line: u32 = 0;
    let mut place: u32 = 0;
    let mut rest = text;
    while let Some((here, behind)) = first_line(rest) {
        let words = first_words(here);
        note(&mut labels, words.label, Label { line, place })?;
        place += instructions_in(words.name);
        line += 1;
        rest = behind;
    }
    Ok(labels)
}

/// Defines the label of a line, where it has one.
fn note<'a>(labels: &mut Labels<'a>, name: Option<&'a [u8]>, label: Label) -> Result<(), AllocError>
    ensures { OnOk result ((other : List ℕ) → held labels.new other ≡ option_or (held labels.old other) (if option_map_or (λ n. bytes_eq n.now other) name.entry false then Some label else None)) }
{
    match name {
        Some(name) => labels.define(name, label),
        None => Ok(()),
    }
}

/// How many instructions a line has whose statement has this name.
fn instructions_in(name: Option<&[u8]>) -> u32
    ensures { (line : List ℕ) → option_map (λ n. n.now) name.entry ≡ slice_get (statement_of line) 0 → result ≡ (if has_instruction line then 1 else 0) }
{
    if is_instruction(name) { 1 } else { 0 }
}

/// Whether the statement of this name is an instruction.
fn is_instruction(name: Option<&[u8]>) -> bool
    ensures { (line : List ℕ) → option_map (λ n. n.now) name.entry ≡ slice_get (statement_of line) 0 → result ≡ has_instruction line }
{
    match name {
        Some(name) => form_of(name).is_some(),
        None => false,
    }
}
