ghost use Rattle.std.specs.Prelude.{◌≡◌, ℕ, List, Option, Some, None, IfOk, IfErr};
ghost use Rattle.dsm_grammar.specs.Grammar.{meaning_of};
ghost use Rattle.dsm_asm.specs.Forms.{statement_in, statement_on};
ghost use Rattle.dsm_asm.specs.Table.{places};
ghost use Rattle.dsm_asm.specs.Words.{listed, words_fault};

use crate::forms::{Form, OnObject};
use crate::labels::Labels;
use crate::operands::Operands;
use crate::settings::Settings;
use dsm_grammar::fault::{AsmKind, Bound};
use dsm_isa::instr::Instr;

/// The instruction of this form with these operands.
pub fn instruction(
    form: Form,
    operands: Operands,
    settings: &Settings,
    labels: &Labels,
) -> Result<Instr, AsmKind>
    ensures sound { IfOk result (λ i. words_fault (places labels.now) (statement_in settings.now.set.sizes form).places (listed operands.entry) ≡ None) }
    ensures meaning { IfOk result (λ i. meaning_of (places labels.now) (statement_in settings.now.set.sizes form) (listed operands.entry) ≡ i) }
    ensures fault { IfErr result (λ kind. words_fault (places labels.now) (statement_in settings.now.set.sizes form).places (listed operands.entry) ≡ Some kind) }
{
    match form {
        Form::Halt => {
            operands.nothing()?;
            Ok(Instr::Halt)
        }
        Form::Li => {
            let (d, k) = operands.register_number()?;
            Ok(Instr::Li { d, k })
        }
        Form::Mov => {
            let (d, a) = operands.two_registers()?;
            Ok(Instr::Mov { d, a })
        }
        Form::Jmp => {
            let to = operands.label(labels)?;
            Ok(Instr::Jmp { to })
        }
        Form::Register(op) => {
            let r = operands.register()?;
            Ok(op.on(r))
        }
        Form::Arithmetic(op) => {
            let (d, a, b) = operands.three_registers()?;
            Ok(op.on(d, a, b))
        }
        Form::Number(op) => {
            let (r, a, k) = operands.two_registers_number()?;
            Ok(op.on(r, a, k))
        }
        Form::Branch(op) => {
            let (a, b, to) = operands.two_registers_label(labels)?;
            Ok(op.on(a, b, to))
        }
        Form::Object(op) => on_object(op, operands, settings),
    }
}

/// The instruction on a lock, a barrier or a flag with these operands.
fn on_object(op: OnObject, operands: Operands, settings: &Settings) -> Result<Instr, AsmKind>
    ensures sound { IfOk result (λ i. (labels : List ℕ → Option ℕ) → words_fault labels (statement_on settings.now.set.sizes op).places (listed operands.entry) ≡ None) }
    ensures meaning { IfOk result (λ i. (labels : List ℕ → Option ℕ) → meaning_of labels (statement_on settings.now.set.sizes op) (listed operands.entry) ≡ i) }
    ensures fault { IfErr result (λ kind. (labels : List ℕ → Option ℕ) → words_fault labels (statement_on settings.now.set.sizes op).places (listed operands.entry) ≡ Some kind) }
{
    match op {
        OnObject::Lock => {
            let l = operands.within(Bound::Lock, 0, settings.locks())?;
            Ok(Instr::Lock { l })
        }
        OnObject::Unlock => {
            let l = operands.within(Bound::Lock, 0, settings.locks())?;
            Ok(Instr::Unlock { l })
        }
        OnObject::Bar => {
            let b = operands.within(Bound::Barrier, 0, settings.barriers())?;
            Ok(Instr::Bar { b })
        }
        OnObject::Set => {
            let f = operands.within(Bound::Flag, 0, settings.flags())?;
            Ok(Instr::Set { f })
        }
        OnObject::Wait => {
            let (f, k) = operands.below_number(Bound::Flag, settings.flags())?;
            Ok(Instr::Wait { f, k })
        }
        OnObject::Waitr => {
            let (f, a) = operands.below_register(Bound::Flag, settings.flags())?;
            Ok(Instr::Waitr { f, a })
        }
    }
}
